//! The cell of a key at a replica.
ghost use Rattle.std.specs.Prelude.{◌≡◌, ℕ, ◌+◌, ◌*◌, ◌<◌, ◌≤◌, true, length, OnOk};
ghost use Rattle.mk_words.specs.Acts.{is_check};
ghost use Rattle.mk_words.specs.Cells.{first_cell, settled_cell, cell_answer, cell_after};
ghost use Rattle.mk_cell.specs.Searching.{HasDigits};

use crate::{Act, Answer, Pending, Steps};
use mk_txn::{NoMemory, Reason, Stamp, Value, precedes};
use std::alloc::Global;
use std::marker::{Brand, Model};
use std::sync::ledger::{Blank, Ledger};

/// The value of a key with its version, the greatest stamp of a committed read, and the pending stamps.
#[derive(Drop)]
pub struct Cell {
    value: Value,
    wts: Stamp,
    rts: Stamp,
    readers: Pending,
    writers: Pending,
}

impl Model for Cell {
    ghost use Rattle.std.specs.Prelude.{min};
    ghost use Rattle.mk_words.specs.Cells.{CellState, CellView};

    ghost Value = { CellView };

    ghost view = { λ cell. record { state = record { value = cell.value; wts = cell.wts; rts = cell.rts; readers = cell.readers.stamps; writers = cell.writers.stamps }; spare = min cell.readers.spare cell.writers.spare } };
}

// The act, with a counter of its own.
fn act_on<L: Ledger>(cell: &mut Cell, act: Act, blank: Blank) -> Answer
    requires room { is_check act ≡ true → 1 ≤ cell.old.spare }
    requires name { blank.name ≡ L.name }
    requires parts { blank.parts ≡ L.parts }
    requires some { 0 < blank.parts }
    ensures answer { result ≡ cell_answer cell.old.state act }
    ensures after { cell.new.state ≡ cell_after cell.old.state act }
{
    let mut steps: Steps<L> = Steps::new(blank);
    cell.act_counted(act, &mut steps)
}

impl Cell {
    /// The cell that every key begins with.
    pub fn new(alloc: Global) -> Cell
        ensures { result.state ≡ first_cell }
    {
        let start = Stamp { time: 0, client: 0 };
        Cell::of(alloc, Value::Number(0), start, start)
    }

    /// A cell with nothing pending.
    pub fn of(alloc: Global, value: Value, wts: Stamp, rts: Stamp) -> Cell
        ensures { result.state ≡ settled_cell value wts rts }
    {
        Cell {
            value,
            wts,
            rts,
            readers: Pending::new(alloc),
            writers: Pending::new(alloc),
        }
    }

    /// Makes room for one check.
    pub fn reserve(&mut self) -> Result<(), NoMemory>
        ensures same { self.new.state ≡ self.old.state }
        ensures room { OnOk result (1 ≤ self.new.spare) }
    {
        self.readers.reserve()?;
        self.writers.reserve()
    }

    /// Does the act, and answers. A check needs room, which `reserve` makes.
    pub fn act(&mut self, act: Act) -> Answer
        requires { is_check act ≡ true → 1 ≤ self.old.spare }
        ensures answer { result ≡ cell_answer self.old.state act }
        ensures after { self.new.state ≡ cell_after self.old.state act }
    {
        act_on::<Brand>(self, act, Blank::new(1))
    }

    /// `act`, with a count of its steps: where the longer list of pending stamps has so many binary digits, there are
    /// at most twice as many steps, and two.
    pub fn act_counted<L: Ledger>(&mut self, act: Act, steps: &mut Steps<L>) -> Answer
        requires { is_check act ≡ true → 1 ≤ self.old.spare }
        ensures answer { result ≡ cell_answer self.old.state act }
        ensures after { self.new.state ≡ cell_after self.old.state act }
        ensures cost { (digits : ℕ) → HasDigits (length self.old.state.readers) digits → HasDigits (length self.old.state.writers) digits → steps.new ≤ steps.old + 2 * digits + 2 }
    {
        match act {
            Act::Get => Answer::Version {
                version: self.wts,
                value: self.value,
            },
            Act::CheckRead { ts, version } => self.check_read(ts, version, steps),
            Act::CheckWrite { ts } => self.check_write(ts, steps),
            Act::CommitRead { ts } => {
                self.readers.leave(ts, steps);
                if precedes(self.rts, ts) {
                    self.rts = ts;
                }
                Answer::Done
            }
            Act::CommitWrite { ts, value } => {
                self.writers.leave(ts, steps);
                if precedes(self.wts, ts) {
                    self.wts = ts;
                    self.value = value;
                }
                Answer::Done
            }
            Act::ReleaseRead { ts } => {
                self.readers.leave(ts, steps);
                Answer::Done
            }
            Act::ReleaseWrite { ts } => {
                self.writers.leave(ts, steps);
                Answer::Done
            }
        }
    }

    fn check_read<L: Ledger>(&mut self, ts: Stamp, version: Stamp, steps: &mut Steps<L>) -> Answer
        requires { 1 ≤ self.old.spare }
        ensures answer { result ≡ cell_answer self.old.state (Act.CheckRead ts version) }
        ensures after { self.new.state ≡ cell_after self.old.state (Act.CheckRead ts version) }
        ensures cost { (digits : ℕ) → HasDigits (length self.old.state.readers) digits → steps.new ≤ steps.old + digits + 2 }
    {
        if precedes(version, self.wts) {
            return Answer::Refused {
                reason: Reason::ReadStale,
                stamp: self.wts,
            };
        }
        match self.writers.least_below(ts, steps) {
            Some(stamp) => Answer::Refused {
                reason: Reason::ReadPending,
                stamp,
            },
            None => {
                self.readers.join(ts, steps);
                Answer::Okay
            }
        }
    }

    fn check_write<L: Ledger>(&mut self, ts: Stamp, steps: &mut Steps<L>) -> Answer
        requires { 1 ≤ self.old.spare }
        ensures answer { result ≡ cell_answer self.old.state (Act.CheckWrite ts) }
        ensures after { self.new.state ≡ cell_after self.old.state (Act.CheckWrite ts) }
        ensures cost { (digits : ℕ) → HasDigits (length self.old.state.readers) digits → HasDigits (length self.old.state.writers) digits → steps.new ≤ steps.old + 2 * digits + 2 }
    {
        if precedes(ts, self.rts) {
            return Answer::Refused {
                reason: Reason::WriteLate,
                stamp: self.rts,
            };
        }
        match self.readers.least_above(ts, steps) {
            Some(stamp) => Answer::Refused {
                reason: Reason::WritePending,
                stamp,
            },
            None => {
                self.writers.join(ts, steps);
                Answer::Okay
            }
        }
    }
}
