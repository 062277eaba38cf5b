use mk_txn::{
    Cause, Conflict, Outcome, ReadItem, Reason, Stamp, Txn, TxnId, Value, Vote, WriteItem,
};
use mk_valid::{Finishing, Validation};
use mk_words::{Act, Answer};
use std::test::Fail;

const START: Stamp = Stamp { time: 0, client: 0 };

const TS: Stamp = Stamp {
    time: 10,
    client: 1,
};

fn read(key: u32) -> ReadItem {
    ReadItem {
        key,
        version: START,
        value: Value::Number(0),
    }
}

// Whether these acts are next, one by one, and these answers lead from each to the next.
fn goes(validation: &mut Validation, row: &[((u32, Act), Answer)]) -> bool {
    for (act, answer) in row {
        if validation.next_act() != Some(*act) || validation.vote().is_some() {
            return false;
        }
        validation.take(*answer);
    }
    validation.next_act().is_none()
}

fn ends(finishing: &mut Finishing, acts: &[(u32, Act)]) -> bool {
    for act in acts {
        if finishing.next_act() != Some(*act) {
            return false;
        }
        finishing.take(Answer::Done);
    }
    finishing.next_act().is_none()
}

#[test]
fn acts_come_one_by_one(rt: HostRuntime) -> Result<(), Fail> {
    let alloc = rt.alloc();
    let id = TxnId { client: 1, seq: 1 };
    let value = Value::Absent;
    let writes = [WriteItem { key: 3, value }];
    let txn = Txn::new(alloc, id, TS, &[read(3), read(4)], &writes)?;
    let check = Act::CheckRead {
        ts: TS,
        version: START,
    };
    let stamp = Stamp {
        time: 11,
        client: 2,
    };
    let reason = Reason::WritePending;
    let refused = [
        ((3, check), Answer::Okay),
        ((4, check), Answer::Okay),
        (
            (3, Act::CheckWrite { ts: TS }),
            Answer::Refused { reason, stamp },
        ),
        ((3, Act::ReleaseRead { ts: TS }), Answer::Done),
        ((4, Act::ReleaseRead { ts: TS }), Answer::Done),
    ];
    let mut validation = Validation::start(alloc, &txn)?;
    assert!(rt; goes(&mut validation, &refused));
    let conflict = Conflict {
        key: 3,
        reason,
        stamp,
    };
    assert!(rt; validation.vote() == Some(Vote::Abort(conflict)));
    let commit = [
        (3, Act::CommitRead { ts: TS }),
        (4, Act::CommitRead { ts: TS }),
        (3, Act::CommitWrite { ts: TS, value }),
    ];
    let mut finishing = Finishing::start(alloc, &txn, Outcome::Commit, false)?;
    assert!(rt; ends(&mut finishing, &commit));
    let abort = Outcome::Abort(Cause::Conflict(conflict));
    let mut nothing = Finishing::start(alloc, &txn, abort, false)?;
    assert!(rt; ends(&mut nothing, &[]));
    Ok(())
}
