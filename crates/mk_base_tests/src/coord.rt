use mk_coord::{Coord, Ruling};
use mk_quorum::Size;
use mk_txn::{Cause, Conflict, Outcome, Reason, Stamp, Vote};
use std::test::Fail;

/// A refusal at this key.
fn refusal(key: u32) -> Conflict {
    Conflict {
        key,
        reason: Reason::ReadStale,
        stamp: Stamp { time: 5, client: 1 },
    }
}

#[test]
fn equal_votes_propose_and_then_decide(rt: HostRuntime) -> Result<(), Fail> {
    let mut coord = Coord::new(Size::new(2).ok_or("a size")?);
    coord.take_vote(0, Vote::Ok);
    coord.take_vote(1, Vote::Ok);
    assert!(rt; coord.decide() == Ruling::Short(2));
    coord.take_vote(2, Vote::Ok);
    assert!(rt; coord.decide() == Ruling::Propose(Outcome::Commit));
    coord.take_vote(4, Vote::Ok);
    assert!(rt; coord.decide() == Ruling::Fast(Outcome::Commit));
    Ok(())
}

#[test]
fn the_lowest_numbered_refusal_is_the_cause(rt: HostRuntime) -> Result<(), Fail> {
    let mut coord = Coord::new(Size::new(2).ok_or("a size")?);
    coord.take_vote(0, Vote::Ok);
    coord.take_vote(3, Vote::Abort(refusal(7)));
    coord.take_vote(1, Vote::Abort(refusal(5)));
    let abort = Outcome::Abort(Cause::Conflict(refusal(5)));
    assert!(rt; coord.decide() == Ruling::Propose(abort));
    Ok(())
}

#[test]
fn a_replica_accepts_once_and_what_is_taught_stays(rt: HostRuntime) -> Result<(), Fail> {
    let mut coord = Coord::new(Size::new(1).ok_or("a size")?);
    coord.take_vote(0, Vote::Ok);
    coord.take_vote(1, Vote::Ok);
    let Ruling::Propose(outcome) = coord.decide() else {
        return Err("no proposal".into());
    };
    coord.propose(outcome);
    coord.take_accepted(2);
    coord.take_accepted(2);
    assert!(rt; coord.decide() == Ruling::Unaccepted(1));
    coord.learn(Outcome::Abort(Cause::Epoch(1)));
    coord.learn(Outcome::Commit);
    let taught = Outcome::Abort(Cause::Epoch(1));
    assert!(rt; coord.decide() == Ruling::Learned(taught));
    Ok(())
}
