//! The fates of messages and the points at which attempts stop, by the lines of a script.
use mk_faults::Rules;
use mk_script::{Fate, Point, parse};
use mk_txn::TxnId;
use mk_words::MsgKind;
use std::test::*;

const FIRST: TxnId = TxnId { client: 1, seq: 1 };

const SECOND: TxnId = TxnId { client: 1, seq: 2 };

const TEXT: &str =
    "meerkat 1\nsize 1\nclient a 0 0\nfault vote a.1 2 1 lose\nfault vote a.1 2 2 late\nstop a.2 votes\ntxn a 10 w:x=5\n";

/// The rules of the script of this text.
fn rules(rt: &HostRuntime, text: &str) -> Result<Rules, Fail> {
    let script = parse(rt.alloc(), text.as_bytes())?;
    Ok(Rules::new(rt.alloc(), &script)?)
}

#[test]
fn fault_lines_are_found(rt: HostRuntime) -> Result<(), Fail> {
    let rules = rules(&rt, TEXT)?;
    let cases = [
        (MsgKind::Vote, FIRST, 2, 1, Fate::Lose),
        (MsgKind::Vote, FIRST, 2, 2, Fate::Late),
        (MsgKind::Vote, FIRST, 2, 3, Fate::Deliver),
        (MsgKind::Vote, FIRST, 1, 1, Fate::Deliver),
        (MsgKind::Vote, SECOND, 2, 1, Fate::Deliver),
        (MsgKind::Accept, FIRST, 2, 1, Fate::Deliver),
    ];
    for (kind, id, replica, nth, fate) in cases {
        assert!(rt; rules.fate_of(kind, id, replica, nth) == fate);
    }
    Ok(())
}

#[test]
fn stop_lines_are_found(rt: HostRuntime) -> Result<(), Fail> {
    let rules = rules(&rt, TEXT)?;
    assert!(rt; rules.stop_of(FIRST).is_none());
    assert!(rt; rules.stop_of(SECOND) == Some(Point::Votes));
    Ok(())
}
