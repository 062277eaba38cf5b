//! Columns with their drivers, as the first round of a script begins.
ghost use Rattle.std.specs.Prelude.{◌≡◌, ◌≤◌, ◌+◌, length, map, IfOk, OnOk};
ghost use Rattle.mk_script.specs.Whole.{IsWhole};
ghost use Rattle.mk_script.specs.declared.lines.ClientLine.{ClientLine as OneClient};
ghost use Rattle.mk_history.specs.Histories.{clients_of as clients_in};
ghost use Rattle.mk_workers_tests.specs.Lanes.{IsFirstColumn, IsFirstDriver, AreLanes};

use mk_column::{Column, Outlet};
use mk_driver::Driver;
use mk_script::{ClientLine, Script};
use mk_trim::{Kept, ReplicaView};
use mk_txn::NoMemory;
use mk_words::Phase;
use std::alloc::Global;
use std::sync::Wait;

/// It counts what it is told, or finds no memory to be told a first time.
#[derive(Clone, Copy)]
pub(crate) struct Counting {
    pub steps: u64,
    pub ends: u64,
    pub is_full: bool,
}

impl Outlet for Counting {
    ghost suits = { λ _ _. Unit {0} };

    ghost kept = { λ _ _. Unit {0} };

    ghost grows = { λ _ _ _ _ _. tt };

    ghost kept_itself = { λ _. tt };

    ghost kept_through = { λ _ _ _ _ _. tt };

    fn tell<R: Wait>(&mut self, _rt: &R, _column: &Column) -> Result<(), NoMemory> {
        if self.is_full {
            return Err(NoMemory);
        }
        self.steps = self.steps.wrapping_add(1);
        Ok(())
    }

    fn round_end<R: Wait>(&mut self, _rt: &R, _column: &Column) -> Result<(), NoMemory> {
        self.ends = self.ends.wrapping_add(1);
        Ok(())
    }
}

/// Columns, drivers and outlets, by number of the column.
#[derive(Drop)]
pub(crate) struct Lanes {
    pub columns: Vec<Column>,
    pub drivers: Vec<Driver>,
    pub outlets: Vec<Counting>,
}

/// Every script keeps the limits of scripts.
pub(crate) fn keeps_limits(script: &Script)
    ensures { IsWhole script.now }
{
    let _size = script.size;
}

// All replicas serve epoch 0.
fn all_serving(alloc: Global, count: u32) -> Result<Vec<ReplicaView>, NoMemory>
    ensures { IfOk result (λ views. length views.items ≡ count) }
{
    let mut views = Vec::new(alloc);
    for _replica in 0..count {
        views.push(ReplicaView {
            phase: Phase::Serving,
            epoch: 0,
            fates: Kept::new(alloc),
        })?;
    }
    Ok(views)
}

// The numbers of the column's clients.
fn clients_of(alloc: Global, clients: &[ClientLine], column: u32) -> Result<Vec<u32>, NoMemory>
    requires { length clients.now ≤ 64 }
    ensures { IfOk result (λ numbers. numbers.items ≡ clients_in column 1 (map (λ (line : OneClient). line.column) clients.now)) }
{
    let mut numbers = Vec::new(alloc);
    let mut number = 1;
    for client in clients {
        if client.column == column {
            numbers.push(number)?;
        }
        number += 1;
    }
    Ok(numbers)
}

// The column of this number.
#[tactic(auto, using(crate::proofs::LaneLaws::clients_distinct))]
fn first_column(alloc: Global, script: &Script, number: u32) -> Result<Column, NoMemory>
    requires { IsWhole script.now }
    ensures { IfOk result (λ column. IsFirstColumn script.now number column) }
{
    let views = all_serving(alloc, script.size.n())?;
    let clients = clients_of(alloc, script.clients.as_slice(), number)?;
    let mut column = Column::new(
        alloc,
        script.size,
        number,
        clients.as_slice(),
        script.keys.len(),
        script.version,
    )?;
    column.begin_round(views);
    Ok(column)
}

// Its driver.
#[tactic(auto, using(crate::proofs::LaneLaws::some_round))]
fn first_driver(alloc: Global, script: &Script, number: u32) -> Result<Driver, NoMemory>
    requires { IsWhole script.now }
    ensures { IfOk result (λ driver. IsFirstDriver script.now number driver) }
{
    let mut driver = Driver::new(alloc, script, number)?;
    driver.begin_round(1)?;
    Ok(driver)
}

// A lane more.
fn add_lane(
    alloc: Global,
    script: &Script,
    number: u32,
    is_full: bool,
    lanes: &mut Lanes,
) -> Result<(), NoMemory>
    requires whole { IsWhole script.now }
    requires number { number ≡ length lanes.old.columns.items }
    requires told { length lanes.old.outlets.items ≡ length lanes.old.columns.items }
    requires lanes { AreLanes script.now lanes.old.drivers.items lanes.old.columns.items }
    ensures more { OnOk result (length lanes.new.columns.items ≡ number + 1) }
    ensures told { OnOk result (length lanes.new.outlets.items ≡ length lanes.new.columns.items) }
    ensures lanes { OnOk result (AreLanes script.now lanes.new.drivers.items lanes.new.columns.items) }
{
    let driver = first_driver(alloc, script, number)?;
    lanes.drivers.push(driver)?;
    let column = first_column(alloc, script, number)?;
    lanes.columns.push(column)?;
    lanes.outlets.push(Counting {
        steps: 0,
        ends: 0,
        is_full,
    })?;
    Ok(())
}

/// The columns from 0 on, so many. The outlet of the full column finds no memory.
pub(crate) fn make_lanes(
    alloc: Global,
    script: &Script,
    count: u32,
    full: u32,
) -> Result<Lanes, NoMemory>
    requires whole { IsWhole script.now }
    ensures told { IfOk result (λ lanes. length lanes.outlets.items ≡ length lanes.columns.items) }
    ensures lanes { IfOk result (λ lanes. AreLanes script.now lanes.drivers.items lanes.columns.items) }
{
    let mut lanes = Lanes {
        columns: Vec::new(alloc),
        drivers: Vec::new(alloc),
        outlets: Vec::new(alloc),
    };
    for number in 0..count {
        add_lane(alloc, script, number, number == full, &mut lanes)?;
    }
    Ok(lanes)
}
