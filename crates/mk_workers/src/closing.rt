//! The locks are taken apart, and the journals put together.
ghost use Rattle.std.specs.Prelude.{◌≡◌, ◌≤◌, ◌+◌, ◌*◌, List, length, IfOk, OnOk};
ghost use Rattle.std.specs.Vec.Iter.{into_iter_items, into_iter_len};
ghost use Rattle.mk_words.specs.Cells.{CellState};
ghost use Rattle.mk_workers.specs.ByKey.{states_of};
ghost use Rattle.mk_workers.specs.Closing.{AreLeft, IsClosedRow};
ghost use Rattle.mk_workers.specs.Seating.{locks_of, AreLocksOf, AreOpened, AreSeated, RowsHold};
ghost use Rattle.mk_workers.specs.Worked.{AreWorked, logs_of};

use crate::locks::Locks;
use crossbeam_utils::CachePadded;
use mk_cell::Cell;
use mk_column::Column;
use mk_history::Journals;
use mk_lock::{KeyLock, Seat};
use mk_txn::NoMemory;
use mk_words::JournalEntry;
use std::alloc::Global;

/// The cells and the journals, by replica and key.
#[derive(Drop)]
pub(crate) struct Closed {
    pub cells: Vec<Vec<Cell>>,
    pub journals: Journals,
}

type PaddedLocks = std::vec::IntoIter<CachePadded<KeyLock>, Global>;

type Rows = std::vec::IntoIter<Vec<Seat>, Global>;

// The cells and the journals of the next replica, by key.
fn close_replica(
    alloc: Global,
    place: (usize, usize),
    locks: &mut PaddedLocks,
    rows: &mut Rows,
    _columns: &[Column],
) -> Result<(Vec<Cell>, Vec<Vec<JournalEntry>>), NoMemory>
    requires left { AreLeft place.1 (logs_of _columns.now) (place.0 * place.1) (locks_of (into_iter_items locks.old)) (into_iter_items rows.old) }
    requires long { (place.1 ≤ into_iter_len locks.old) × (place.1 ≤ into_iter_len rows.old) }
    ensures left { OnOk result (AreLeft place.1 (logs_of _columns.now) (place.0 * place.1 + place.1) (locks_of (into_iter_items locks.new)) (into_iter_items rows.new)) }
    ensures long { OnOk result ((into_iter_len locks.new + place.1 ≡ into_iter_len locks.old) × (into_iter_len rows.new + place.1 ≡ into_iter_len rows.old)) }
    ensures closed { IfOk result (λ closed. (before : List (List CellState)) → AreOpened before (locks_of (into_iter_items locks.old)) →
        AreOpened before (locks_of (into_iter_items locks.new)) × IsClosedRow place.1 (logs_of _columns.now) before place.0 closed.0 closed.1) }
{
    let (_replica, keys) = place;
    let mut cells = Vec::new(alloc);
    let mut journals = Vec::new(alloc);
    for _key in 0..keys {
        let Some(lock) = locks.next() else {
            unreachable!()
        };
        let Some(seats) = rows.next() else {
            unreachable!()
        };
        let (cell, journal) = lock.into_inner().close(seats);
        cells.push(cell)?;
        journals.push(journal)?;
    }
    Ok((cells, journals))
}

/// Takes all locks apart, to which all columns gave their seats back.
pub(crate) fn close_all(
    alloc: Global,
    size: (usize, usize),
    made: Locks,
    _columns: &[Column],
) -> Result<Closed, NoMemory>
    requires locks { AreLocksOf size.0 size.1 (locks_of made.locks.items) }
    requires seated { AreSeated (length _columns.now) (locks_of made.locks.items) }
    requires rows { RowsHold (locks_of made.locks.items) (logs_of _columns.now) made.rows.items }
    ensures { IfOk result (λ closed. (before : List (List CellState)) → AreOpened before (locks_of made.locks.items) →
        AreWorked size.0 size.1 (logs_of _columns.now) before (states_of closed.cells.items) closed.journals) }
{
    let (replicas, keys) = size;
    let Locks { locks, rows } = made;
    let mut locks = locks.into_iter();
    let mut rows = rows.into_iter();
    let mut cells = Vec::new(alloc);
    let mut journals = Vec::new(alloc);
    for replica in 0..replicas {
        let (row, listed) = close_replica(alloc, (replica, keys), &mut locks, &mut rows, _columns)?;
        cells.push(row)?;
        journals.push(listed)?;
    }
    Ok(Closed {
        cells,
        journals: Journals::of(journals),
    })
}
