ghost use Rattle.std.specs.Prelude.{◌≡◌, ◌<◌};

use mk_cell::{Act, Answer, Cell, Pending, Places, Steps, answers, exclusions_hold, first_above};
use mk_txn::{NoMemory, Reason, Stamp, Value};
use std::alloc::Global;
use std::marker::Brand;
use std::sync::ledger::{Blank, Ledger};

const START: Stamp = Stamp { time: 0, client: 0 };

const A: Stamp = Stamp {
    time: 10,
    client: 1,
};

const B: Stamp = Stamp {
    time: 11,
    client: 2,
};

const LATE: Stamp = Stamp {
    time: 20,
    client: 1,
};

const EARLY: Stamp = Stamp { time: 5, client: 2 };

const FIVE: Value = Value::Number(5);

fn check_read(ts: Stamp) -> Act {
    Act::CheckRead { ts, version: START }
}

fn refused(reason: Reason, stamp: Stamp) -> Answer {
    Answer::Refused { reason, stamp }
}

// Whether a new cell gives these answers.
fn gives(alloc: Global, row: &[(Act, Answer)]) -> Result<bool, NoMemory> {
    let mut cell = Cell::new(alloc);
    for (act, answer) in row {
        cell.reserve()?;
        if cell.act(*act) != *answer || !answers(act, answer) {
            return Ok(false);
        }
    }
    Ok(true)
}

#[test]
fn a_pending_writer_holds_readers_up(rt: HostRuntime) -> Result<(), NoMemory> {
    exclusions_hold();
    let row = [
        (check_read(A), Answer::Okay),
        (Act::CheckWrite { ts: A }, Answer::Okay),
        (check_read(B), refused(Reason::ReadPending, A)),
        (Act::CommitRead { ts: A }, Answer::Done),
        (Act::CommitWrite { ts: A, value: FIVE }, Answer::Done),
        (
            Act::Get,
            Answer::Version {
                version: A,
                value: FIVE,
            },
        ),
        (check_read(LATE), refused(Reason::ReadStale, A)),
    ];
    assert!(rt; gives(rt.alloc(), &row)?);
    Ok(())
}

#[test]
fn a_reader_holds_earlier_writes_up(rt: HostRuntime) -> Result<(), NoMemory> {
    let row = [
        (check_read(LATE), Answer::Okay),
        (
            Act::CheckWrite { ts: EARLY },
            refused(Reason::WritePending, LATE),
        ),
        (Act::CommitRead { ts: LATE }, Answer::Done),
        (
            Act::CheckWrite { ts: EARLY },
            refused(Reason::WriteLate, LATE),
        ),
    ];
    assert!(rt; gives(rt.alloc(), &row)?);
    Ok(())
}

#[test]
fn late_writes_and_releases_leave_nothing(rt: HostRuntime) -> Result<(), NoMemory> {
    let late_write = [
        (Act::CheckWrite { ts: LATE }, Answer::Okay),
        (Act::CheckWrite { ts: A }, Answer::Okay),
        (
            Act::CommitWrite {
                ts: LATE,
                value: FIVE,
            },
            Answer::Done,
        ),
        (
            Act::CommitWrite {
                ts: A,
                value: Value::Absent,
            },
            Answer::Done,
        ),
        (
            Act::Get,
            Answer::Version {
                version: LATE,
                value: FIVE,
            },
        ),
    ];
    let given_up = [
        (Act::CheckWrite { ts: A }, Answer::Okay),
        (Act::ReleaseWrite { ts: A }, Answer::Done),
        (check_read(B), Answer::Okay),
        (Act::ReleaseRead { ts: B }, Answer::Done),
        (Act::CheckWrite { ts: EARLY }, Answer::Okay),
    ];
    for row in [late_write, given_up] {
        assert!(rt; gives(rt.alloc(), &row)?);
    }
    Ok(())
}

// Where 15.1 and 20.1 would stand among 10.1, 20.1 and 30.1, and what a cell of version 20.1 answers to a read of 0.0.
fn find<L: Ledger>(alloc: Global, blank: Blank) -> Result<(usize, usize, Answer), NoMemory>
    requires name { blank.name ≡ L.name }
    requires parts { blank.parts ≡ L.parts }
    requires some { 0 < blank.parts }
{
    let mut steps: Steps<L> = Steps::new(blank);
    let mut pending = Pending::new(alloc);
    for time in [30, 10, 20] {
        pending.reserve()?;
        pending.join(Stamp { time, client: 1 }, &mut steps);
    }
    let before = first_above(
        &pending,
        Stamp {
            time: 15,
            client: 1,
        },
        &mut steps,
    );
    let at = first_above(&pending, LATE, &mut steps);
    let mut cell = Cell::of(alloc, Value::Absent, LATE, START);
    cell.reserve()?;
    let answer = cell.act_counted(check_read(LATE), &mut steps);
    Ok((before, at, answer))
}

#[test]
fn stamps_stand_in_order(rt: HostRuntime) -> Result<(), NoMemory> {
    let found = find::<Brand>(rt.alloc(), Blank::new(1))?;
    assert!(rt; found == (1, 2, refused(Reason::ReadStale, LATE)));
    Ok(())
}
