use mk_quorum::Size;
use mk_takeover::{Pick, Takeover};
use mk_txn::{Accepted, Cause, Outcome, Vote};
use mk_words::Told;
use std::test::Fail;

const BLANK: Told = Told {
    vote: None,
    accepted: None,
    last: None,
};

const OK: Told = Told {
    vote: Some(Vote::Ok),
    accepted: None,
    last: None,
};

fn accepting(view: u32, outcome: Outcome) -> Told {
    Told {
        vote: None,
        accepted: Some(Accepted { view, outcome }),
        last: None,
    }
}

#[test]
fn a_block_without_ok_votes_makes_it_clear(rt: HostRuntime) -> Result<(), Fail> {
    let mut takeover = Takeover::begin(Size::new(2).ok_or("a size")?, 1);
    takeover.take_told(0, &OK);
    takeover.take_told(1, &OK);
    takeover.take_told(2, &BLANK);
    assert!(rt; takeover.decide() == Pick::Unclear { ok: 2, not_ok: 1 });
    takeover.take_told(3, &BLANK);
    let abort = Outcome::Abort(Cause::Takeover(1));
    assert!(rt; takeover.decide() == Pick::Propose(abort));
    Ok(())
}

#[test]
fn the_highest_view_is_proposed_again(rt: HostRuntime) -> Result<(), Fail> {
    let mut takeover = Takeover::begin(Size::new(1).ok_or("a size")?, 3);
    let abort = Outcome::Abort(Cause::Takeover(2));
    takeover.take_told(0, &accepting(0, Outcome::Commit));
    takeover.take_told(1, &accepting(2, abort));
    assert!(rt; takeover.decide() == Pick::Propose(abort));
    Ok(())
}

#[test]
fn a_replica_accepts_once_and_what_is_taught_stays(rt: HostRuntime) -> Result<(), Fail> {
    let mut takeover = Takeover::begin(Size::new(1).ok_or("a size")?, 1);
    takeover.take_told(0, &OK);
    takeover.take_told(1, &OK);
    let Pick::Propose(outcome) = takeover.decide() else {
        return Err("no proposal".into());
    };
    takeover.propose(outcome);
    takeover.take_accepted(2);
    takeover.take_accepted(2);
    assert!(rt; takeover.decide() == Pick::Unaccepted(1));
    takeover.learn(Outcome::Commit);
    takeover.learn(Outcome::Abort(Cause::Epoch(1)));
    assert!(rt; takeover.decide() == Pick::Known(Outcome::Commit));
    Ok(())
}
