//! Messages that are lost, sent again and taken twice, where marks go with the Validates.
use crate::lane::{column_of, commits, is_committed, learned, play};
use mk_column::Column;
use std::alloc::Global;
use std::test::*;

// A takeover commits what two replicas voted for; two of its three Decides are lost.
fn taken_over() -> &'static str {
    "
        begin 1 0
        stamp 10 0
        validate
        take 1
        check 10 0 0
        take 2
        check 10 1 0
        takeover 1
        take 6
        take 7
        take 9
        take 10
        pick 1
        take 11
        take 12
        take 14
        take 15
        pick 1
    "
}

// Replica 0 is told of the commit, and tells it to whoever asks, proposes or validates once more; replica 1 answers a
// Validate with the vote that it kept.
fn told() -> &'static str {
    "
        take 16
        commit 10 0 0
        validate
        take 20
        take 22
        take 19
        take 23
        take 11
        take 24
        takeover 2
        take 25
        take 28
        pick 2
        take 30
        commit 10 1 0
    "
}

// The client's next attempt sends the mark 1 with its Validates, and replica 0 votes.
fn marked() -> &'static str {
    "
        begin 1 0
        stamp 20 0
        validate
        take 32
        check 20 0 0
        take 35
    "
}

// The column after the takeover.
fn decided(alloc: Global) -> Result<Box<Column>, Fail> {
    let mut column = column_of(alloc, 2, 2, "serves serves serves")?;
    play(alloc, &mut column, 1, taken_over())?;
    Ok(column)
}

#[test]
fn a_told_outcome_is_learned(rt: HostRuntime) -> Result<(), Fail> {
    let mut column = decided(rt.alloc())?;
    assert!(rt; learned(&column).is_none() && is_committed(&column));
    play(rt.alloc(), &mut column, 1, told())?;
    assert!(rt; commits(&column));
    Ok(())
}

// Whether the replica has so many entries, and this mark of client 1.
fn holds(column: &Column, replica: u32, count: usize, mark: u32) -> bool {
    if replica >= column.size().n() {
        return false;
    }
    match column.entries(replica) {
        Ok(entries) => entries.len() == count && column.marks(replica).get(1) == mark,
        Err(_) => false,
    }
}

// Whether replica 0 has nothing after a reset.
fn is_emptied(column: &mut Column) -> bool {
    if column.wants().is_some() || column.size().n() != 3 {
        return false;
    }
    column.reset(0);
    holds(column, 0, 0, 0)
}

#[test]
fn marks_rise_with_validates(rt: HostRuntime) -> Result<(), Fail> {
    let mut column = decided(rt.alloc())?;
    play(rt.alloc(), &mut column, 1, told())?;
    play(rt.alloc(), &mut column, 2, marked())?;
    assert!(rt; holds(&column, 0, 2, 1) && holds(&column, 1, 1, 0));
    assert!(rt; is_emptied(&mut column));
    Ok(())
}
