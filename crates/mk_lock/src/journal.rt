// A cell with its journal.
ghost use Rattle.std.specs.Prelude.{◌≡◌, true, [], ◌∷◌, ◌++◌, IfOk, OnErr};
ghost use Rattle.mk_words.specs.Acts.{answer_fits};
ghost use Rattle.mk_words.specs.Journals.{Replays};
ghost use Rattle.mk_lock.specs.Entries.{entry};

use mk_cell::Cell;
use mk_txn::NoMemory;
use mk_words::{Act, Answer, JournalEntry};
use std::alloc::Global;
use std::marker::Model;
use std::snapshot::Snapshot;

/// A cell with the journal that led to it from its opening. A contract sees the opening cell and the journal.
#[derive(Drop)]
pub struct Journal {
    opening: Snapshot<Cell>,
    cell: Cell,
    entries: Vec<JournalEntry>,
}

impl Model for Journal {
    ghost use Rattle.mk_words.specs.Journals.{Replays};
    ghost use Rattle.mk_lock.specs.Entries.{JournalState};

    ghost Value = { JournalState };

    ghost view = { λ j. record { opening = j.opening.value.state; entries = j.entries.items } };

    ghost invariant = { λ j. Replays j.opening.value.state j.entries.items j.cell.state };
}

impl Journal {
    /// No entry yet.
    pub fn new(alloc: Global, cell: Cell) -> Journal
        ensures { result ≡ record { opening = cell.state; entries = [] } }
    {
        Journal {
            opening: Snapshot::of(&cell),
            cell,
            entries: Vec::new(alloc),
        }
    }

    /// Does the act on the cell, and writes it down under the number.
    pub fn act(&mut self, number: u32, act: Act) -> Result<Answer, NoMemory>
        ensures opening { self.new.opening ≡ self.old.opening }
        ensures ok { IfOk result (λ answer. self.new.entries ≡ self.old.entries ++ entry number act answer ∷ []) }
        ensures kind { IfOk result (λ answer. answer_fits act answer ≡ true) }
        ensures err { OnErr result (self.new ≡ self.old) }
    {
        self.cell.reserve()?;
        self.entries.reserve(1)?;
        let answer = self.cell.act(act);
        let entry = JournalEntry {
            seat: number,
            act,
            answer,
        };
        self.entries.push_reserved(entry);
        Ok(answer)
    }

    /// The cell, and all entries.
    pub fn into_parts(self) -> (Cell, Vec<JournalEntry>)
        ensures journal { result.1.items ≡ self.entries }
        ensures cell { Replays self.opening result.1.items result.0.state }
    {
        let Journal {
            opening: _,
            cell,
            entries,
        } = self;
        (cell, entries)
    }
}
