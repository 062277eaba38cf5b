//! The locks of all keys of all replicas.
ghost use Rattle.std.specs.Prelude.{◌≡◌, ◌≤◌, ◌<◌, ◌+◌, ◌*◌, ◌^◌, List, length, IfOk, OnOk, map, slice_index_or, []};
ghost use Rattle.mk_words.specs.Cells.{CellState};
ghost use Rattle.mk_workers.specs.Seating.{locks_of, AreLocksOf, AreOpened, AreSeated, RowsFit};
ghost use Rattle.mk_workers.specs.ByKey.{states_in, states_of, keys_of, IsByKey};
ghost use Rattle.mk_workers.specs.Making.{HasMade, HasAdded};

use crossbeam_utils::CachePadded;
use mk_cell::Cell;
use mk_lock::{KeyLock, Seat};
use mk_txn::NoMemory;
use std::alloc::Global;

/// The locks by replica and key, each apart from its neighbours, and the seats of each by column.
#[derive(Drop)]
pub(crate) struct Locks {
    pub locks: Vec<CachePadded<KeyLock>>,
    pub rows: Vec<Vec<Seat>>,
}

// One lock more, behind those that are there.
fn add_lock(
    alloc: Global,
    replica: u32,
    key: u32,
    cell: Cell,
    columns: u32,
    made: &mut Locks,
) -> Result<(), NoMemory>
    requires { 1 ≤ columns }
    ensures { OnOk result (HasAdded replica key columns cell.state made.old made.new) }
{
    let (lock, seats) = KeyLock::new(alloc, replica, key, cell, columns)?;
    made.locks.reserve(1)?;
    made.rows.reserve(1)?;
    made.locks.push_reserved(CachePadded::new(lock));
    made.rows.push_reserved(seats);
    Ok(())
}

// The locks of one replica come behind those that are there.
fn add_replica(
    alloc: Global,
    replica: u32,
    cells: Vec<Cell>,
    columns: u32,
    made: &mut Locks,
) -> Result<(), NoMemory>
    requires some { 1 ≤ columns }
    requires few { length cells.items < 2 ^ 32 }
    ensures { OnOk result ((all : List (List CellState)) → slice_index_or all replica [] ≡ states_in cells →
        HasMade (replica * length cells.items) (length cells.items) columns all made.old →
        HasMade (replica * length cells.items + length cells.items) (length cells.items) columns all made.new) }
{
    let mut key = 0;
    for cell in cells {
        add_lock(alloc, replica, key, cell, columns, made)?;
        key += 1;
    }
    Ok(())
}

/// A lock for each cell, with a seat for each column.
pub(crate) fn make_locks(
    alloc: Global,
    cells: Vec<Vec<Cell>>,
    columns: u32,
) -> Result<Locks, NoMemory>
    requires some { 1 ≤ columns }
    requires few { (length cells.items < 2 ^ 32) × (keys_of cells.items < 2 ^ 32) }
    requires by_key { IsByKey (length cells.items) (keys_of cells.items) (states_of cells.items) }
    ensures locks { IfOk result (λ made. AreLocksOf (length cells.items) (keys_of cells.items) (locks_of made.locks.items)) }
    ensures seated { IfOk result (λ made. AreSeated columns (locks_of made.locks.items)) }
    ensures opened { IfOk result (λ made. AreOpened (states_of cells.items) (locks_of made.locks.items)) }
    ensures rows { IfOk result (λ made. RowsFit (locks_of made.locks.items) columns made.rows.items) }
{
    let mut made = Locks {
        locks: Vec::new(alloc),
        rows: Vec::new(alloc),
    };
    let mut replica = 0;
    for row in cells {
        add_replica(alloc, replica, row, columns, &mut made)?;
        replica += 1;
    }
    Ok(made)
}
