//! Seats go from the locks to the workers, and back.
ghost use Rattle.std.specs.Prelude.{◌≡◌, ◌+◌, ◌++◌, ◌∷◌, [], length, IfOk, OnOk};
ghost use Rattle.mk_workers.specs.Seating.{locks_of, RowsFit, RowsHold, HasSeats, IsFreshColumn};
ghost use Rattle.mk_workers.specs.Worked.{logs_of};

use crossbeam_utils::CachePadded;
use mk_column::Column;
use mk_lock::{KeyLock, Seat};
use mk_txn::NoMemory;
use std::alloc::Global;

/// Takes the last seat of each row: the seats of one column, in the order of the locks.
pub(crate) fn take_column(
    alloc: Global,
    _locks: &[CachePadded<KeyLock>],
    rows: &mut [Vec<Seat>],
    _column: usize,
) -> Result<Vec<Seat>, NoMemory>
    requires { RowsFit (locks_of _locks.now) (_column + 1) rows.old }
    ensures rows { OnOk result (RowsFit (locks_of _locks.now) _column rows.new) }
    ensures column { IfOk result (λ seats. IsFreshColumn (locks_of _locks.now) _column seats.items) }
{
    let mut seats = Vec::new(alloc);
    for row in rows.iter_mut() {
        let Some(seat) = row.pop() else {
            unreachable!()
        };
        seats.push(seat)?;
    }
    Ok(seats)
}

/// Puts the seats of one column at the ends of the rows. The columns before it have given theirs.
pub(crate) fn give_column(
    _locks: &[CachePadded<KeyLock>],
    rows: &mut [Vec<Seat>],
    _given: &[Column],
    _column: &Column,
    mut seats: Vec<Seat>,
) -> Result<(), NoMemory>
    requires rows { RowsHold (locks_of _locks.now) (logs_of _given.now) rows.old }
    requires seats { HasSeats (locks_of _locks.now) (length _given.now) _column.now.log seats.items }
    ensures { OnOk result (RowsHold (locks_of _locks.now) (logs_of _given.now ++ _column.now.log ∷ []) rows.new) }
{
    while let Some(seat) = seats.pop() {
        let row = &mut rows[seats.len()];
        row.push(seat)?;
    }
    Ok(())
}
