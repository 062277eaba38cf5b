//! One round of all columns.
ghost use Rattle.std.specs.Prelude.{◌≡◌, ◌<◌, [], length, IfOk, OnOk};
ghost use Rattle.mk_workers.specs.Begun.{AreBegun, SuitEach};
ghost use Rattle.mk_workers.specs.ByKey.{states_of, keys_of, IsByKey};
ghost use Rattle.mk_workers.specs.Closing.{HasNoEntries};
ghost use Rattle.mk_workers.specs.Seating.{locks_of, RowsFit, RowsHold};
ghost use Rattle.mk_workers.specs.Crews.{AreNumbered, AreStarted, AreAtPlace, AllHaveSeats, AllEnded, IsCrew};
ghost use Rattle.mk_workers.specs.Worked.{AreWorked, AreTold, HaveEnded, logs_of};

use crate::KeyJournals;
use crate::closing::{Closed, close_all};
use crate::dealing::{give_column, take_column};
use crate::locks::{Locks, make_locks};
use crate::worker::{Shared, Worker, run_all};
use crossbeam_utils::CachePadded;
use mk_cell::Cell;
use mk_column::{Column, Outlet};
use mk_driver::Driver;
use mk_faults::Rules;
use mk_lock::{Gate, KeyLock, Seat};
use mk_proc::Procs;
use mk_txn::NoMemory;
use mk_words::JournalEntry;
use std::alloc::Global;
use std::sync::Wait;
use std::thread::Threads;

/// What all workers together leave: columns, drivers and outlets in their order, and the cells and journals by replica and key.
#[derive(Drop)]
pub struct Worked<O: Outlet + Drop> {
    pub columns: Vec<Column>,
    pub drivers: Vec<Driver>,
    pub cells: Vec<Vec<Cell>>,
    pub journals: KeyJournals,
    pub outlets: Vec<O>,
}

// What workers are made of, by column.
#[derive(Drop)]
struct Crew<O: Outlet + Drop> {
    columns: Vec<Column>,
    drivers: Vec<Driver>,
    outlets: Vec<O>,
}

// A worker for each column, with its seats. The last column comes first.
fn start_all<O: Outlet + Drop>(
    alloc: Global,
    locks: &[CachePadded<KeyLock>],
    rows: &mut [Vec<Seat>],
    crew: Crew<O>,
) -> Result<Vec<Worker<O>>, NoMemory>
    requires rows { RowsFit (locks_of locks.now) (length crew.columns.items) rows.old }
    requires numbers { AreNumbered crew.columns.items }
    requires as_many { (length crew.drivers.items ≡ length crew.columns.items) × (length crew.outlets.items ≡ length crew.columns.items) }
    ensures rows { OnOk result (RowsFit (locks_of locks.now) 0 rows.new) }
    ensures workers { IfOk result (λ workers. AreStarted (locks_of locks.now) crew.columns.items crew.drivers.items crew.outlets.items workers.items) }
{
    let Crew {
        mut columns,
        mut drivers,
        mut outlets,
    } = crew;
    let mut workers = Vec::new(alloc);
    while let Some(column) = columns.pop() {
        let Some(driver) = drivers.pop() else {
            unreachable!()
        };
        let Some(outlet) = outlets.pop() else {
            unreachable!()
        };
        let seats = take_column(alloc, locks, rows, columns.len())?;
        workers.push(Worker {
            column,
            driver,
            seats,
            outlet,
            ended: Ok(()),
        })?;
    }
    Ok(workers)
}

// All seats go back to their locks, where each worker came to its end.
fn end_all<O: Outlet + Drop>(
    alloc: Global,
    locks: &[CachePadded<KeyLock>],
    rows: &mut [Vec<Seat>],
    mut workers: Vec<Worker<O>>,
) -> Result<Crew<O>, NoMemory>
    requires rows { RowsHold (locks_of locks.now) [] rows.old }
    requires numbers { AreAtPlace workers.items }
    requires seats { AllHaveSeats (locks_of locks.now) workers.items }
    ensures rows { IfOk result (λ crew. RowsHold (locks_of locks.now) (logs_of crew.columns.items) rows.new) }
    ensures crew { IfOk result (λ crew. IsCrew workers.items crew.columns.items crew.drivers.items crew.outlets.items) }
    ensures ended { OnOk result (AllEnded workers.items) }
{
    let mut columns = Vec::new(alloc);
    let mut drivers = Vec::new(alloc);
    let mut outlets = Vec::new(alloc);
    while let Some(worker) = workers.pop() {
        let Worker {
            column,
            driver,
            seats,
            outlet,
            ended,
        } = worker;
        ended?;
        give_column(locks, rows, &columns, &column, seats)?;
        columns.push(column)?;
        drivers.push(driver)?;
        outlets.push(outlet)?;
    }
    Ok(Crew {
        columns,
        drivers,
        outlets,
    })
}

// A list for each cell of one replica, with no entry.
fn no_entries_at(alloc: Global, cells: &[Cell]) -> Result<Vec<Vec<JournalEntry>>, NoMemory>
    ensures { IfOk result (λ journals. HasNoEntries cells.now journals) }
{
    let mut journals = Vec::new(alloc);
    for _cell in cells {
        journals.push(Vec::new(alloc))?;
    }
    Ok(journals)
}

// A list for each cell, with no entry.
fn no_entries(alloc: Global, cells: &[Vec<Cell>]) -> Result<KeyJournals, NoMemory>
    requires { IsByKey (length cells.now) (keys_of cells.now) (states_of cells.now) }
    ensures { IfOk result (λ journals. AreWorked (length cells.now) (keys_of cells.now) [] (states_of cells.now) (states_of cells.now) journals) }
{
    let mut replicas = Vec::new(alloc);
    for row in cells {
        replicas.push(no_entries_at(alloc, row)?)?;
    }
    Ok(KeyJournals::of(replicas))
}

/// Each column goes on to the end of its round in a thread of its own. The threads meet at the key locks alone. Without memory
/// in one of them the others go on to their end, and nothing is handed back.
pub fn work<G: Gate + Sync, O: Outlet + Drop + Send, R: Threads + Wait + Sync>(
    rt: &R,
    alloc: Global,
    columns: Vec<Column>,
    drivers: Vec<Driver>,
    cells: Vec<Vec<Cell>>,
    rules: &Rules,
    procs: &Procs,
    gate: &G,
    outlets: Vec<O>,
) -> Result<Worked<O>, NoMemory>
    requires begun { AreBegun rules.now (length cells.items) (keys_of cells.items) drivers.items columns.items (states_of cells.items) }
    requires suited { SuitEach O.suits outlets.items columns.items }
    ensures journals { IfOk result (λ worked. AreWorked (length cells.items) (keys_of cells.items) (logs_of worked.columns.items)
        (states_of cells.items) (states_of worked.cells.items) worked.journals) }
    ensures ended { IfOk result (λ worked. HaveEnded rules.now drivers.items worked.drivers.items columns.items worked.columns.items) }
    ensures told { IfOk result (λ worked. AreTold O.suits O.kept outlets.items worked.outlets.items worked.columns.items) }
{
    if columns.is_empty() {
        let journals = no_entries(alloc, &cells)?;
        return Ok(Worked {
            columns,
            drivers,
            cells,
            journals,
            outlets,
        });
    }
    let crew = Crew {
        columns,
        drivers,
        outlets,
    };
    work_together(rt, alloc, crew, cells, rules, procs, gate)
}

// How many keys there are at a replica.
fn count_keys(cells: &[Vec<Cell>]) -> usize
    ensures { result ≡ keys_of cells.now }
{
    match cells.first() {
        Some(row) => row.len(),
        None => 0,
    }
}

// The same, where there is a column.
fn work_together<G: Gate + Sync, O: Outlet + Drop + Send, R: Threads + Wait + Sync>(
    rt: &R,
    alloc: Global,
    crew: Crew<O>,
    cells: Vec<Vec<Cell>>,
    rules: &Rules,
    procs: &Procs,
    gate: &G,
) -> Result<Worked<O>, NoMemory>
    requires some { 0 < length crew.columns.items }
    requires begun { AreBegun rules.now (length cells.items) (keys_of cells.items) crew.drivers.items crew.columns.items (states_of cells.items) }
    requires suited { SuitEach O.suits crew.outlets.items crew.columns.items }
    ensures journals { IfOk result (λ worked. AreWorked (length cells.items) (keys_of cells.items) (logs_of worked.columns.items)
        (states_of cells.items) (states_of worked.cells.items) worked.journals) }
    ensures ended { IfOk result (λ worked. HaveEnded rules.now crew.drivers.items worked.drivers.items crew.columns.items worked.columns.items) }
    ensures told { IfOk result (λ worked. AreTold O.suits O.kept crew.outlets.items worked.outlets.items worked.columns.items) }
{
    let Ok(seats) = u32::try_from(crew.columns.len()) else {
        return Err(NoMemory);
    };
    let replicas = cells.len();
    let keys = count_keys(&cells);
    let Locks { locks, mut rows } = make_locks(alloc, cells, seats)?;
    let mut workers = start_all(alloc, &locks, &mut rows, crew)?;
    let shared = Shared {
        locks: locks.as_slice(),
        replicas,
        keys,
        rules,
        procs,
        gate,
    };
    run_all(rt, &shared, &mut workers);
    let Crew {
        columns,
        drivers,
        outlets,
    } = end_all(alloc, &locks, &mut rows, workers)?;
    let made = Locks { locks, rows };
    let Closed { cells, journals } = close_all(alloc, (replicas, keys), made, &columns)?;
    Ok(Worked {
        columns,
        drivers,
        cells,
        journals,
        outlets,
    })
}
