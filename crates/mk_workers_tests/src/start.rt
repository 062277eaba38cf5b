//! The first round of a script, and what its workers leave.
ghost use Rattle.std.specs.Prelude.{◌≡◌, length, IfOk};
ghost use Rattle.std.specs.Global.{Vec as Row};
ghost use Rattle.mk_lists.specs.Among.{Each};
ghost use Rattle.mk_words.specs.Cells.{CellView};
ghost use Rattle.mk_script.specs.Whole.{IsWhole};
ghost use Rattle.mk_faults.specs.Fates.{rules_of};
ghost use Rattle.mk_workers_tests.specs.Lanes.{AreLanes};

use crate::lanes::{Counting, Lanes, keeps_limits, make_lanes};
use mk_cell::Cell;
use mk_column::Column;
use mk_driver::stands_at_first;
use mk_driver_laws::has_come_goes_on;
use mk_faults::Rules;
use mk_lock::Gate;
use mk_proc::{Proc, ProcKind, Procs, add, max, sum};
use mk_script::{Script, parse};
use mk_txn::{NoMemory, Outcome, TxnId};
use mk_workers::{Worked, work};
use std::alloc::Global;
use std::sync::Wait;
use std::test::Fail;
use std::thread::Threads;

/// One transaction on the one key in column 0, and one on the other in column 1.
pub(crate) const TWO_WORKERS: &str =
    "meerkat 1\nsize 1\nclient a 0 0\nclient b 1 1\ntxn a 10 r:x w:x=5\ntxn b 10 r:y c:y=add(7)\n";

/// No column is full.
pub(crate) const NONE_FULL: u32 = u32::MAX;

/// Eight columns whose transactions go for the same two keys.
pub(crate) const SHARED_KEYS: &str =
    "meerkat 1\nsize 1\nclient a 0 0\nclient b 1 1\nclient c 2 2\nclient d 3 0\nclient e 4 1\nclient f 5 2\n\
     client g 6 0\nclient h 7 1\nretry 2\ntxn a 10 r:x w:y=1\ntxn b 10 r:y c:x=add(2)\ntxn c 10 r:x c:x=add(3)\ntxn d 10 w:x=4 w:y=4\n\
     txn e 10 r:x r:y\ntxn f 10 r:y c:y=add(6)\ntxn g 10 r:y w:x=7\ntxn h 10 r:x r:y c:y=sum(0)\n";

// New cells of one replica, by key.
fn new_cells(alloc: Global, keys: u32) -> Result<Vec<Cell>, NoMemory>
    ensures { IfOk result (λ row. length row.items ≡ keys) }
{
    let mut row = Vec::new(alloc);
    for _key in 0..keys {
        row.push(Cell::new(alloc))?;
    }
    Ok(row)
}

// New cells, by replica and key.
fn all_cells(alloc: Global, replicas: u32, keys: u32) -> Result<Vec<Vec<Cell>>, NoMemory>
    ensures all { IfOk result (λ rows. length rows.items ≡ replicas) }
    ensures each { IfOk result (λ rows. Each (λ (row : Row CellView). length row.items ≡ keys) rows.items) }
{
    let mut rows = Vec::new(alloc);
    for _replica in 0..replicas {
        rows.push(new_cells(alloc, keys)?)?;
    }
    Ok(rows)
}

// All workers of the round, over new cells.
fn work_through<G: Gate + Sync, R: Threads + Wait + Sync>(
    rt: &R,
    alloc: Global,
    script: &Script,
    rules: &Rules,
    lanes: Lanes,
    gate: &G,
) -> Result<Box<Worked<Counting>>, NoMemory>
    requires whole { IsWhole script.now }
    requires rules { rules.now ≡ rules_of script.now }
    requires told { length lanes.outlets.items ≡ length lanes.columns.items }
    requires lanes { AreLanes script.now lanes.drivers.items lanes.columns.items }
{
    stands_at_first();
    has_come_goes_on();
    let procs = Procs::new(
        Proc::new(ProcKind::Add, add),
        Proc::new(ProcKind::Sum, sum),
        Proc::new(ProcKind::Max, max),
    );
    let cells = all_cells(alloc, script.size.n(), script.keys.len())?;
    let Lanes {
        columns,
        drivers,
        outlets,
    } = lanes;
    let worked = work(
        rt, alloc, columns, drivers, cells, rules, &procs, gate, outlets,
    )?;
    Ok(Box::new(alloc, worked)?)
}

// What the own coordinator of the client's first attempt has learned. Client 1 is in column 0, client 2 in column 1, and so on.
fn learned(column: &Column, client: u32) -> Option<Outcome> {
    column.attempt(TxnId { client, seq: 1 })?.learned
}

/// Whether there are so many columns, each of which learned, and whose outlet was told of each step and once of the end.
pub(crate) fn went_well(worked: &Worked<Counting>, count: u32) -> bool {
    let mut client: u32 = 0;
    for (column, outlet) in worked.columns.iter().zip(worked.outlets.iter()) {
        client = client.wrapping_add(1);
        if learned(column, client).is_none()
            || outlet.steps != column.log().len() as u64
            || outlet.ends != 1
        {
            return false;
        }
    }
    client == count
}

/// How many of the first attempts have committed.
pub(crate) fn count_commits(worked: &Worked<Counting>) -> u32 {
    let mut client: u32 = 0;
    let mut commits: u32 = 0;
    for column in worked.columns.iter() {
        client = client.wrapping_add(1);
        if learned(column, client) == Some(Outcome::Commit) {
            commits = commits.wrapping_add(1);
        }
    }
    commits
}

/// The script of a text.
pub(crate) fn script_of(alloc: Global, text: &str) -> Result<Box<Script>, Fail> {
    Ok(Box::new(alloc, parse(alloc, text.as_bytes())?)?)
}

/// What the workers of the first round of a script with so many columns leave. The outlet of the full column finds no memory.
pub(crate) fn run<G: Gate + Sync, R: Threads + Wait + Sync>(
    rt: &R,
    alloc: Global,
    script: &Script,
    count: u32,
    full: u32,
    gate: &G,
) -> Result<Box<Worked<Counting>>, NoMemory> {
    keeps_limits(script);
    let rules = Rules::new(alloc, script)?;
    let lanes = make_lanes(alloc, script, count, full)?;
    work_through(rt, alloc, script, &rules, lanes, gate)
}
