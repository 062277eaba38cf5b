//! The cell that a write and a read of it leave, and what fits after them.
ghost use Rattle.std.specs.Prelude.{IfOk};
ghost use Rattle.mk_merge.specs.Keepings.{Stand};
ghost use Rattle.mk_merge_tests.specs.Rows.{finished as are_finished};

use crate::tests::building::{EARLY, FIRST, LATE, OTHER, early, entry, late, made, one, promise};
use mk_cell::Cell;
use mk_merge::{Base, Keeping, Promise};
use mk_snap::Snap;
use mk_txn::{Outcome, ReadItem, Reason, Stamp, Txn, Value, Vote, WriteItem};
use mk_words::{Act, Answer, Fated};
use std::alloc::Global;
use std::process::Abort;
use std::test::Fail;

// Final commits of a write and of a read of it.
fn finished<K: Keeping>(alloc: Global) -> Result<Vec<Promise<K>>, Fail>
    ensures { IfOk result (λ made. Stand K K.stands made.items are_finished) }
{
    let voted = Some(Vote::Ok);
    let commit = Some(Outcome::Commit);
    let mut entries = one(alloc, entry(early(alloc)?, 0, voted, None, commit))?;
    entries.push(entry(late(alloc)?, 0, voted, None, commit))?;
    let mut promises = Vec::new(alloc);
    promises.push(promise(alloc, 1, entries))?;
    promises.push(promise(alloc, 0, Vec::new(alloc)))?;
    Ok(promises)
}

// The cell holds 5, written at 10.1 and read at 20.2.
fn holds_five(rt: &impl Abort, cell: Cell) -> Result<(), Fail> {
    let mut cell = cell;
    let read_at = Stamp {
        time: 20,
        client: 2,
    };
    let under = Act::CheckWrite {
        ts: Stamp {
            time: 15,
            client: 3,
        },
    };
    let latest = Answer::Version {
        version: Stamp {
            time: 10,
            client: 1,
        },
        value: Value::Number(5),
    };
    let refused = Answer::Refused {
        reason: Reason::WriteLate,
        stamp: read_at,
    };
    let at = Act::CheckWrite { ts: read_at };
    for (act, answer) in [(Act::Get, latest), (under, refused), (at, Answer::Okay)] {
        cell.reserve()?;
        assert!(rt; cell.act(act) == answer);
    }
    Ok(())
}

// Of a write at 10.1 and a read at 20.2: no write fits below the read, and no read below the write.
fn later_ones_fit<K: Keeping>(rt: &impl Abort, alloc: Global) -> Result<(), Fail> {
    let promises: Vec<Promise<K>> = finished(alloc)?;
    let base = made(alloc, 1, 1, promises)?;
    assert!(rt; base.fates().commits() == 2 && base.fates().aborts() == 0);
    let write = WriteItem {
        key: 0,
        value: Value::Number(6),
    };
    let under_read = Txn::new(
        alloc,
        OTHER,
        Stamp {
            time: 15,
            client: 3,
        },
        &[],
        &[write],
    )?;
    assert!(rt; !base.fits(&under_read));
    for (version, fits) in [
        (FIRST, false),
        (
            Stamp {
                time: 10,
                client: 1,
            },
            true,
        ),
    ] {
        let read = ReadItem {
            key: 0,
            version,
            value: Value::Number(5),
        };
        let later = Txn::new(
            alloc,
            OTHER,
            Stamp {
                time: 25,
                client: 3,
            },
            &[read],
            &[],
        )?;
        assert!(rt; base.fits(&later) == fits);
    }
    let Some(cell) = base.cells(1)?.pop() else {
        panic!(rt; "one cell")
    };
    holds_five(rt, cell)
}

#[test]
fn later_ones_fit_a_base(rt: HostRuntime) -> Result<(), Fail> {
    later_ones_fit::<Base>(&rt, rt.alloc())?;
    later_ones_fit::<Snap>(&rt, rt.alloc())
}

#[test]
fn a_list_of_two_is_rebuilt(rt: HostRuntime) -> Result<(), Fail> {
    let alloc = rt.alloc();
    let outcome = Outcome::Commit;
    let mut list = Vec::new(alloc);
    let txn = early(alloc)?;
    list.push(Fated { txn, outcome })?;
    let txn = late(alloc)?;
    list.push(Fated { txn, outcome })?;
    let base = Base::of(alloc, list)?;
    assert!(rt; base.list().len() == 2);
    assert!(rt; base.fate(LATE) == Some(outcome));
    assert!(rt; base.fate(EARLY) == Some(outcome));
    let Some(cell) = base.cells(1)?.pop() else {
        panic!(rt; "one cell")
    };
    holds_five(&rt, cell)?;
    let same = Cell::of(
        alloc,
        Value::Number(5),
        Stamp {
            time: 10,
            client: 1,
        },
        Stamp {
            time: 20,
            client: 2,
        },
    );
    holds_five(&rt, same)
}
