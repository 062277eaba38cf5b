//! An attempt's own coordinator.
use crate::lane::{ID, column_of, commits, fresh, play};
use mk_column::Column;
use mk_txn::{Known, Outcome};
use mk_words::{Body, Moved, Msg, MsgKind};
use std::test::*;

// How many messages of this kind were sent to the replica about the first attempt.
fn sent(column: &Column, kind: MsgKind, replica: u32) -> u64 {
    column.link().count(kind, ID, replica)
}

// A proposal is sent twice, and after a stop nothing is done.
fn coordinating() -> &'static str {
    "
        begin 1 0
        2 validate
        2 rule
        2 again
        2 stop
        stamp 10 0
        5 rule
        4 again
        validate
        take 1
        check 10 0 0
        take 4
        take 2
        check 10 1 0
        take 5
        rule
        5 rule
        4 validate
        again
        stop
        3 stop
        3 validate
        3 rule
        3 again
    "
}

#[test]
fn conditions_of_the_own_coordinator(rt: HostRuntime) -> Result<(), Fail> {
    let mut column = fresh(rt.alloc())?;
    play(rt.alloc(), &mut column, 1, coordinating())?;
    assert!(rt; sent(&column, MsgKind::Accept, 2) == 2);
    Ok(())
}

fn key_first() -> &'static str {
    "
        begin 1 0
        stamp 10 0
        validate
        take 1
        1 take 2
        1 validate
        1 rule
        1 again
        1 takeover 1
        1 pick 1
        1 stop
        check 10 0 0
        2 take 5
        2 take 0
    "
}

#[test]
fn a_key_call_comes_before_all_else(rt: HostRuntime) -> Result<(), Fail> {
    let mut column = fresh(rt.alloc())?;
    play(rt.alloc(), &mut column, 1, key_first())
}

// Whether message 4 is replica 1's, which says that the attempt committed.
fn has_moved(column: &Column) -> bool {
    let fate = Known::Outcome(Outcome::Commit);
    let moved = Msg {
        epoch: 0,
        id: ID,
        replica: 1,
        view: 0,
        body: Body::Moved(Moved { to: 1, fate }),
    };
    column.link().get(4).copied() == Some(moved)
}

// The client begins its next attempt in the epoch that it heard of, and not in an earlier one.
fn taught() -> &'static str {
    "
        begin 1 0
        stamp 10 0
        validate
        take 2
        take 4
        4 validate
        4 rule
        4 again
        3 stop
        3 begin 1 0
        begin 1 1
    "
}

#[test]
fn a_later_epoch_teaches_its_outcome(rt: HostRuntime) -> Result<(), Fail> {
    let sights = "serves knows serves";
    let mut column = column_of(rt.alloc(), 2, 1, sights)?;
    play(rt.alloc(), &mut column, 1, taught())?;
    assert!(rt; commits(&column) && has_moved(&column));
    assert!(rt; sent(&column, MsgKind::Decide, 0) == 0);
    Ok(())
}
