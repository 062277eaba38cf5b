//! Columns with their drivers, over plain cells.
ghost use Rattle.std.specs.Prelude.{◌≡◌};

use crate::columns::columns_of;
use mk_cell::Cell;
use mk_column::{Column, ColumnError};
use mk_driver::{Driver, Next};
use mk_faults::Rules;
use mk_proc::Procs;
use mk_script::Script;
use mk_store::head_of;
use mk_txn::NoMemory;
use mk_words::{KeyCall, Step};
use std::alloc::Global;

/// The turns of a column at the most.
const MOST_TURNS: usize = 10_000_000;

/// A cell for each key of each replica, those of a replica one after another.
#[derive(Drop)]
struct Cells {
    keys: u32,
    list: Vec<Cell>,
}

impl Cells {
    fn new(alloc: Global, replicas: u32, keys: u32) -> Result<Cells, NoMemory> {
        let mut list = Vec::new(alloc);
        for _ in 0..replicas.saturating_mul(keys) {
            list.push(Cell::new(alloc))?;
        }
        Ok(Cells { keys, list })
    }

    /// The column takes the cell's answer; where there is no cell, it stays as it is.
    fn answer(&mut self, column: &mut Column, call: KeyCall) -> Result<(), ColumnError>
        ensures { column.new.setting ≡ column.old.setting }
    {
        let place = call
            .replica
            .saturating_mul(self.keys)
            .saturating_add(call.key);
        if let Some(cell) = self.list.get_mut(place as usize) {
            cell.reserve()?;
            let answer = cell.act(call.act);
            column.step(Step::Key { call, answer })?;
        }
        Ok(())
    }
}

/// A column and its driver.
#[derive(Drop)]
struct Lane {
    driver: Driver,
    column: Column,
    ghost fits: { column.setting.faults ≡ driver.size },
}

impl Lane {
    /// The column of this number, in the script's first round. None if it is not of the script's size.
    fn new(alloc: Global, script: &Script, number: u32, column: Column) -> Option<Lane> {
        if script.rounds.as_slice().is_empty() || column.size().f() != script.size.f() {
            return None;
        }
        let mut driver = Driver::new(alloc, script, number).ok()?;
        driver.begin_round(1).ok()?;
        Some(Lane { driver, column })
    }

    /// One turn; false where the round is over.
    fn turn(
        &mut self,
        cells: &mut Cells,
        rules: &Rules,
        procs: &Procs,
    ) -> Result<bool, ColumnError> {
        match self.driver.next(&self.column, rules, procs)? {
            Next::Step(step) => self.column.step(step)?,
            Next::Key(call) => cells.answer(&mut self.column, call)?,
            Next::Over => return Ok(false),
        }
        Ok(true)
    }

    /// The turns of the round, one after another, and how many there were. None unless they came to their end.
    fn drive(&mut self, cells: &mut Cells, rules: &Rules, procs: &Procs) -> Option<usize> {
        for turns in 0..MOST_TURNS {
            if !self.turn(cells, rules, procs).ok()? {
                return Some(turns);
            }
        }
        None
    }
}

/// The columns of a script's first round, which has begun, and all that they go on with.
#[derive(Drop)]
pub struct Lanes {
    lanes: Vec<Lane>,
    cells: Cells,
    rules: Rules,
}

impl Lanes {
    /// None if the script has no round.
    pub fn new(alloc: Global, script: &Script) -> Option<Lanes> {
        let head = head_of(alloc, script).ok()?;
        let cells = Cells::new(alloc, script.size.n(), head.key_names.len()).ok()?;
        let rules = Rules::new(alloc, script).ok()?;
        let mut lanes = Vec::new(alloc);
        let mut number: u32 = 0;
        for column in columns_of(alloc, &head).ok()? {
            lanes.push(Lane::new(alloc, script, number, column)?).ok()?;
            number = number.saturating_add(1);
        }
        Some(Lanes {
            lanes,
            cells,
            rules,
        })
    }

    /// The turns of all columns to the end of the round, one column after another, and how many there were.
    pub fn drive(mut self, procs: &Procs) -> Option<usize> {
        let mut count: usize = 0;
        for lane in self.lanes.iter_mut() {
            let turns = lane.drive(&mut self.cells, &self.rules, procs)?;
            count = count.saturating_add(turns);
        }
        Some(count)
    }
}
