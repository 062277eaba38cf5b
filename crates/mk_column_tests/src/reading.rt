//! An attempt reads and is stamped.
use crate::lane::{column_of, fresh, play};
use std::test::*;

fn reading() -> &'static str {
    "
        2 read 0
        begin 1 0
        3 read 2
        5 stamp 10
        read 0
        1 read 1
        1 stamp 10 0
        1 get 3 0 1
        2 misfit 0 0
        get 3 0 0
        1 get 3 0 0
        4 read 0
        3 stamp 10 2
        4 stamp 2305843009213693953
        stamp 10
        2 stamp 10
        2 read 1
    "
}

#[test]
fn conditions_of_reading_and_stamping(rt: HostRuntime) -> Result<(), Fail> {
    let mut column = fresh(rt.alloc())?;
    play(rt.alloc(), &mut column, 1, reading())
}

// The last of the 16 keys was written at the last time.
fn sixteen() -> &'static str {
    "
        begin 1 0
        read 0
        get 1 0 0
        read 1
        get 1 0 1
        read 2
        get 1 0 2
        read 3
        get 1 0 3
        read 4
        get 1 0 4
        read 5
        get 1 0 5
        read 6
        get 1 0 6
        read 7
        get 1 0 7
        read 8
        get 1 0 8
        read 9
        get 1 0 9
        read 10
        get 1 0 10
        read 11
        get 1 0 11
        read 12
        get 1 0 12
        read 13
        get 1 0 13
        read 14
        get 1 0 14
        read 15
        get 4611686018427387904 0 15
        4 read 16
        4 stamp 10
        3 stamp 10 0 0
        3 stamp 10 0 1 2 3 4 5 6 7 8 9 10 11 12 13 14 15 16
    "
}

#[test]
fn an_attempt_reads_sixteen_keys(rt: HostRuntime) -> Result<(), Fail> {
    let mut column = column_of(rt.alloc(), 20, 1, "serves serves serves")?;
    play(rt.alloc(), &mut column, 1, sixteen())
}
