//! Attempts to their end at the replicas.
use crate::lane::{ID, commits, fresh, learned, play};
use crate::steps::LATE;
use mk_column::{Column, NoOutlet, Outlet};
use mk_txn::{Cause, Outcome, Reason, Vote};
use std::sync::Wait;
use std::test::*;

// Whether replica 2 has one entry, with this vote and a commit.
fn has_committed(column: &Column, vote: Option<Vote>) -> bool {
    if column.size().n() != 3 {
        return false;
    }
    let Ok(entries) = column.entries(2) else {
        return false;
    };
    match entries.as_slice() {
        [entry] => entry.vote == vote && entry.last == Some(Outcome::Commit),
        _ => false,
    }
}

// Whether the log has so many steps, and none once they are taken.
fn logs(column: &mut Column, count: usize) -> bool {
    column.log().len() == count && column.take_log().len() == count && column.log().is_empty()
}

fn nineteen() -> &'static str {
    "
        begin 1 0
        stamp 10 0
        validate
        take 1
        check 10 0 0
        take 4
        take 2
        check 10 1 0
        take 5
        take 3
        check 10 2 0
        take 6
        rule
        take 7
        commit 10 0 0
        take 8
        commit 10 1 0
        take 9
        commit 10 2 0
        4 validate
        4 rule
        4 again
    "
}

#[test]
fn one_write_commits_in_nineteen_steps(rt: HostRuntime) -> Result<(), Fail> {
    let mut column = fresh(rt.alloc())?;
    play(rt.alloc(), &mut column, 1, nineteen())?;
    assert!(rt; commits(&column) && has_committed(&column, Some(Vote::Ok)));
    assert!(rt; logs(&mut column, 19));
    Ok(())
}

// Two votes are a proposal, which two replicas accept; the third, which never voted, commits too.
fn slow() -> &'static str {
    "
        begin 1 0
        stamp 10 0
        validate
        take 1
        check 10 0 0
        take 4
        take 2
        check 10 1 0
        take 5
        rule
        take 6
        take 7
        take 9
        take 10
        rule
        take 11
        commit 10 0 0
        take 12
        commit 10 1 0
        take 13
        commit 10 2 0
    "
}

#[test]
fn a_slow_path_ends(rt: HostRuntime) -> Result<(), Fail> {
    let mut column = fresh(rt.alloc())?;
    play(rt.alloc(), &mut column, 1, slow())?;
    assert!(rt; commits(&column) && has_committed(&column, None));
    Ok(())
}

// Replica 0 votes for a commit, replica 1 refuses key 1 and gives key 0 up, and replica 2 refuses key 0. The proposal
// is an abort, for which replica 0 gives both keys up.
fn aborting() -> &'static str {
    "
        begin 1 0
        stamp 10 0 1
        validate
        take 1
        check 10 0 0
        check 10 0 1
        take 2
        check 10 1 0
        late 10 1 1
        release 10 1 0
        take 3
        late 10 2 0
        take 4
        take 5
        take 6
        rule
        take 7
        take 8
        take 10
        take 11
        rule
        take 12
        release 10 0 0
        release 10 0 1
        take 13
        take 14
    "
}

// Whether the outcome is an abort by the refusal of key 1.
fn is_refused(outcome: Option<Outcome>) -> bool {
    let Some(Outcome::Abort(Cause::Conflict(conflict))) = outcome else {
        return false;
    };
    conflict.key == 1 && conflict.reason == Reason::WriteLate && conflict.stamp == LATE
}

#[test]
fn an_abort_gives_up_what_was_checked(rt: HostRuntime) -> Result<(), Fail> {
    let mut column = fresh(rt.alloc())?;
    play(rt.alloc(), &mut column, 1, aborting())?;
    assert!(rt; is_refused(learned(&column)));
    assert!(rt; is_refused(column.decided(ID)));
    Ok(())
}

fn goes_on(rt: &impl Wait, column: &Column) -> bool {
    let mut outlet = NoOutlet;
    outlet.tell(rt, column).is_ok() && outlet.round_end(rt, column).is_ok()
}

#[test]
fn nobody_is_told(rt: HostRuntime) -> Result<(), Fail> {
    let column = fresh(rt.alloc())?;
    assert!(rt; goes_on(&rt, &column));
    Ok(())
}
