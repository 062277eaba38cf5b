//! An attempt begins.
use crate::lane::{column_of, fresh, play};
use mk_column::Column;
use std::alloc::Global;
use std::test::*;

fn beginning() -> &'static str {
    "
        2 rule
        2 take 1
        3 unread 1
        begin 1 0
    "
}

#[test]
fn a_fresh_column_begins(rt: HostRuntime) -> Result<(), Fail> {
    let mut column = fresh(rt.alloc())?;
    play(rt.alloc(), &mut column, 1, beginning())
}

fn refused() -> &'static str {
    "
        2 begin 2 0
        3 begin 1 1
        3 begin 1 3
        2 unread 2
        3 unread 1
        begin 1 0
        2 begin 1 0
        2 unread 1
        read 0
        1 begin 1 0
        1 unread 1
    "
}

#[test]
fn conditions_of_beginning(rt: HostRuntime) -> Result<(), Fail> {
    let sights = "serves paused lacking";
    let mut column = column_of(rt.alloc(), 2, 1, sights)?;
    play(rt.alloc(), &mut column, 1, refused())
}

// Attempts of these moves take each place of the client, and `last` comes after them.
fn fills(alloc: Global, column: &mut Column, moves: &str, last: &str) -> Result<(), Fail> {
    for seq in 1..=16_384 {
        play(alloc, column, seq, moves)?;
    }
    play(alloc, column, 1, last)
}

#[test]
fn attempts_end_at_the_last_place(rt: HostRuntime) -> Result<(), Fail> {
    let mut column = column_of(rt.alloc(), 2, 1, "paused adopted lacking")?;
    fills(rt.alloc(), &mut column, "unread 1", "4 unread 1")
}

#[test]
fn attempts_begin_up_to_the_last_place(rt: HostRuntime) -> Result<(), Fail> {
    let mut column = fresh(rt.alloc())?;
    let moves = "begin 1 0\nstamp 10 0";
    fills(rt.alloc(), &mut column, moves, "4 begin 1 0")
}
