//! Takeovers of the first attempt.
use crate::lane::{ID, column_of, fresh, is_committed, learned, play, round};
use mk_column::Column;
use mk_txn::{Cause, Outcome};
use std::alloc::Global;
use std::test::*;

// The own coordinator stops; two replicas answer the takeover, which proposes, and accept.
fn stopped() -> &'static str {
    "
        begin 1 0
        stamp 10 0
        2 takeover 1
        validate
        stop
        3 takeover 0
        3 takeover 16
        4 takeover 2
        2 pick 1
        takeover 1
        3 takeover 1
        4 pick 1
        take 4
        take 5
        take 7
        take 8
        pick 1
        take 9
        take 10
        take 12
        take 13
        pick 1
        2 pick 1
    "
}

// Whether the outcome is an abort by the takeover at view 1.
fn is_abort(outcome: Option<Outcome>) -> bool {
    outcome == Some(Outcome::Abort(Cause::Takeover(1)))
}

#[test]
fn a_takeover_ends_what_is_stopped(rt: HostRuntime) -> Result<(), Fail> {
    let sights = "serves serves paused";
    let mut column = column_of(rt.alloc(), 2, 1, sights)?;
    play(rt.alloc(), &mut column, 1, stopped())?;
    assert!(rt; learned(&column).is_none() && is_abort(column.decided(ID)));
    Ok(())
}

fn sent() -> &'static str {
    "begin 1 0\nstamp 10 0\nvalidate"
}

fn asked() -> &'static str {
    "
        takeover 2
        take 4
        take 5
        take 7
        take 8
    "
}

// Replicas 0 and 1 have gone on to epoch 1, and answer the leader of view 2, which asks for the attempt.
fn left_behind(alloc: Global, sights: &str) -> Result<Box<Column>, Fail> {
    let mut column = fresh(alloc)?;
    play(alloc, &mut column, 1, sent())?;
    round(alloc, &mut column, sights)?;
    play(alloc, &mut column, 1, asked())?;
    Ok(column)
}

#[test]
fn a_forgotten_outcome_teaches_nothing(rt: HostRuntime) -> Result<(), Fail> {
    let mut column = left_behind(rt.alloc(), "covers covers serves")?;
    play(rt.alloc(), &mut column, 1, "4 pick 2")?;
    assert!(rt; learned(&column).is_none() && column.decided(ID).is_none());
    Ok(())
}

#[test]
fn a_remembered_outcome_is_learned(rt: HostRuntime) -> Result<(), Fail> {
    let mut column = left_behind(rt.alloc(), "knows knows serves")?;
    play(rt.alloc(), &mut column, 1, "pick 2")?;
    assert!(rt; learned(&column).is_none() && is_committed(&column));
    Ok(())
}

#[test]
fn a_leader_that_serves_no_more_picks_nothing(rt: HostRuntime) -> Result<(), Fail> {
    let mut column = fresh(rt.alloc())?;
    play(rt.alloc(), &mut column, 1, sent())?;
    play(rt.alloc(), &mut column, 1, "takeover 1")?;
    let sights = "serves paused serves";
    round(rt.alloc(), &mut column, sights)?;
    play(rt.alloc(), &mut column, 1, "3 pick 1")
}
