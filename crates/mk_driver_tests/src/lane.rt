//! A column of a script with its driver, and the cells of all replicas.
ghost use Rattle.std.specs.Prelude.{◌≡◌, ◌<◌, length, IfOk};
ghost use Rattle.mk_quorum.specs.Sizes.{members};

use mk_cell::Cell;
use mk_column::{Column, ColumnError, Phase, ReplicaView};
use mk_driver::{Driver, Next};
use mk_faults::Rules;
use mk_proc::Procs;
use mk_quorum::Size;
use mk_script::Script;
use mk_trim::Kept;
use mk_txn::{NoMemory, Outcome, TxnId};
use mk_words::{KeyCall, Step};
use std::alloc::Global;

// No round here has as many turns.
const MOST_TURNS: u32 = 10_000;

// No script here has as many keys.
const KEYS: u32 = 4;

/// A cell for each key of each replica, those of a replica one after another.
#[derive(Drop)]
pub(crate) struct Cells {
    list: Vec<Cell>,
}

impl Cells {
    pub(crate) fn new(alloc: Global, replicas: u32) -> Result<Cells, NoMemory> {
        let mut list = Vec::new(alloc);
        for _ in 0..replicas.saturating_mul(KEYS) {
            list.push(Cell::new(alloc))?;
        }
        Ok(Cells { list })
    }

    // The column takes the cell's answer; where there is no cell, it stays as it is.
    fn answer(&mut self, column: &mut Column, call: KeyCall) -> Result<(), ColumnError>
        ensures { column.new.setting ≡ column.old.setting }
    {
        let place = call.replica.saturating_mul(KEYS).saturating_add(call.key);
        if let Some(cell) = self.list.get_mut(place as usize) {
            cell.reserve()?;
            let answer = cell.act(call.act);
            column.step(Step::Key { call, answer })?;
        }
        Ok(())
    }
}

// All replicas serve epoch 0.
fn all_serving(alloc: Global, size: Size) -> Result<Vec<ReplicaView>, NoMemory>
    ensures { IfOk result (λ views. length views.items ≡ members size) }
{
    let mut views = Vec::new(alloc);
    for _replica in 0..size.n() {
        views.push(ReplicaView {
            phase: Phase::Serving,
            epoch: 0,
            fates: Kept::new(alloc),
        })?;
    }
    Ok(views)
}

/// A column and its driver.
#[derive(Drop)]
pub(crate) struct Lane {
    driver: Driver,
    column: Column,
    ghost fits: { column.setting.faults ≡ driver.size },
}

impl Lane {
    /// The column of this number, with this one client, and its driver, as the first round begins.
    pub(crate) fn new(
        alloc: Global,
        script: &Script,
        number: u32,
        client: u32,
    ) -> Result<Lane, NoMemory>
        requires { 0 < length script.now.rounds }
    {
        let mut driver = Driver::new(alloc, script, number)?;
        driver.begin_round(1)?;
        let mut column = Column::new(
            alloc,
            script.size,
            number,
            &[client],
            script.keys.len(),
            script.version,
        )?;
        column.begin_round(all_serving(alloc, script.size)?);
        Ok(Lane { driver, column })
    }

    /// What the coordinator of the client's first attempt learned.
    pub(crate) fn learned(&self, client: u32) -> Option<Outcome> {
        self.column.attempt(TxnId { client, seq: 1 })?.learned
    }

    /// What was first learned of the client's first attempt.
    pub(crate) fn decided(&self, client: u32) -> Option<Outcome> {
        self.column.decided(TxnId { client, seq: 1 })
    }

    // One turn; false where the round is over.
    fn turn(
        &mut self,
        cells: &mut Cells,
        rules: &Rules,
        procs: &Procs,
    ) -> Result<bool, ColumnError> {
        match self.driver.next(&self.column, rules, procs)? {
            Next::Step(step) => self.column.step(step)?,
            Next::Key(call) => cells.answer(&mut self.column, call)?,
            Next::Over => return Ok(false),
        }
        Ok(true)
    }

    /// The turns of the round, one after another. None unless they came to their end.
    pub(crate) fn drive(&mut self, cells: &mut Cells, rules: &Rules, procs: &Procs) -> Option<()> {
        for _ in 0..MOST_TURNS {
            if !self.turn(cells, rules, procs).ok()? {
                return Some(());
            }
        }
        None
    }
}
