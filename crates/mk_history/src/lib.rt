//! The types of a run: its rounds with their logs, journals and global lines, and how attempts end.
#![tactic(auto)]

use mk_txn::{NoMemory, Outcome};
use mk_words::{JournalEntry, Step};
pub use mk_words::{GlobalAnswer, GlobalEntry, GlobalLine};
use std::marker::Model;

/// The log of each column in a round.
#[derive(Drop)]
pub struct Logs {
    columns: Vec<Vec<Step>>,
}

impl Model for Logs {
    ghost use Rattle.std.specs.Prelude.{List, map};
    ghost use Rattle.mk_words.specs.declared.Step.{Step};

    ghost Value = { List (List Step) };

    ghost view = { λ logs. map (λ column. column.items) logs.columns.items };
}

impl Logs {
    ghost use Rattle.std.specs.Prelude.{◌≡◌, map};

    pub fn of(columns: Vec<Vec<Step>>) -> Logs
        ensures { result ≡ map (λ column. column.items) columns.items }
    {
        Logs { columns }
    }

    /// The logs, by column.
    pub fn as_slice(&self) -> &[Vec<Step>]
        ensures { map (λ column. column.items) result.now ≡ self.now }
    {
        self.columns.as_slice()
    }

    /// Gives the lists back, which takes no memory.
    pub fn into_vec(self) -> Vec<Vec<Step>>
        ensures { map (λ column. column.items) result.items ≡ self }
    {
        self.columns
    }
}

/// The journal of each key of each replica in a round.
#[derive(Drop)]
pub struct Journals {
    replicas: Vec<Vec<Vec<JournalEntry>>>,
}

impl Model for Journals {
    ghost use Rattle.std.specs.Prelude.{List, map};
    ghost use Rattle.mk_words.specs.declared.JournalEntry.{JournalEntry};

    ghost Value = { List (List (List JournalEntry)) };

    ghost view = { λ journals. map (λ replica. map (λ key. key.items) replica.items) journals.replicas.items };
}

impl Journals {
    ghost use Rattle.std.specs.Prelude.{◌≡◌, map};

    pub fn of(replicas: Vec<Vec<Vec<JournalEntry>>>) -> Journals
        ensures { result ≡ map (λ replica. map (λ key. key.items) replica.items) replicas.items }
    {
        Journals { replicas }
    }

    /// The journals, by replica and key.
    pub fn as_slice(&self) -> &[Vec<Vec<JournalEntry>>]
        ensures { map (λ replica. map (λ key. key.items) replica.items) result.now ≡ self.now }
    {
        self.replicas.as_slice()
    }

    /// Gives the lists back, which takes no memory.
    pub fn into_vec(self) -> Vec<Vec<Vec<JournalEntry>>>
        ensures { map (λ replica. map (λ key. key.items) replica.items) result.items ≡ self }
    {
        self.replicas
    }
}

/// The global lines of a round with their answers.
#[derive(Drop)]
pub struct Globals {
    entries: Vec<GlobalEntry>,
}

impl Model for Globals {
    ghost use Rattle.std.specs.Prelude.{List};
    ghost use Rattle.mk_words.specs.declared.GlobalEntry.{GlobalEntry};

    ghost Value = { List GlobalEntry };

    ghost view = { λ globals. globals.entries.items };
}

impl Globals {
    ghost use Rattle.std.specs.Prelude.{◌≡◌};

    pub fn of(entries: Vec<GlobalEntry>) -> Globals
        ensures { result ≡ entries.items }
    {
        Globals { entries }
    }

    pub fn as_slice(&self) -> &[GlobalEntry]
        ensures { result.now ≡ self.now }
    {
        self.entries.as_slice()
    }

    /// Gives the list back, which takes no memory.
    pub fn into_vec(self) -> Vec<GlobalEntry>
        ensures { result.items ≡ self }
    {
        self.entries
    }
}

/// What was done in one round.
#[derive(Drop)]
pub struct RoundLog {
    pub logs: Logs,
    pub journals: Journals,
    pub globals: Globals,
}

/// The rounds of a run, in order.
#[derive(Drop)]
pub struct Rounds {
    rounds: Vec<RoundLog>,
}

impl Model for Rounds {
    ghost use Rattle.std.specs.Prelude.{List};
    ghost use Rattle.mk_history.specs.declared.RoundLog.{RoundLog};

    ghost Value = { List RoundLog };

    ghost view = { λ rounds. rounds.rounds.items };
}

impl Rounds {
    ghost use Rattle.std.specs.Prelude.{◌≡◌};

    pub fn of(rounds: Vec<RoundLog>) -> Rounds
        ensures { result ≡ rounds.items }
    {
        Rounds { rounds }
    }

    pub fn as_slice(&self) -> &[RoundLog]
        ensures { result.now ≡ self.now }
    {
        self.rounds.as_slice()
    }

    /// Gives the list back, which takes no memory.
    pub fn into_vec(self) -> Vec<RoundLog>
        ensures { result.items ≡ self }
    {
        self.rounds
    }
}

/// The column of each client, in order of number.
#[derive(Drop)]
pub struct ColumnNumbers {
    numbers: Vec<u32>,
}

impl Model for ColumnNumbers {
    ghost use Rattle.std.specs.Prelude.{ℕ, List};

    ghost Value = { List ℕ };

    ghost view = { λ numbers. numbers.numbers.items };
}

impl ColumnNumbers {
    ghost use Rattle.std.specs.Prelude.{◌≡◌, IfOk};

    pub fn of(numbers: Vec<u32>) -> ColumnNumbers
        ensures { result ≡ numbers.items }
    {
        ColumnNumbers { numbers }
    }

    pub fn as_slice(&self) -> &[u32]
        ensures { result.now ≡ self.now }
    {
        self.numbers.as_slice()
    }

    /// Gives the list back, which takes no memory.
    pub fn into_vec(self) -> Vec<u32>
        ensures { result.items ≡ self }
    {
        self.numbers
    }

    pub fn copy(&self) -> Result<ColumnNumbers, NoMemory>
        ensures { IfOk result (λ numbers. numbers ≡ self.now) }
    {
        Ok(ColumnNumbers {
            numbers: self.numbers.clone()?,
        })
    }
}

/// How an outcome was learned first.
#[derive(Clone, Copy, PartialEq, Eq)]
pub enum Path {
    /// By equal votes of a fast quorum.
    Fast,
    /// By accepts of the own coordinator's proposal.
    Slow,
    /// By accepts of the proposal of the takeover at this view.
    Takeover(u32),
    /// By the first Enter of this epoch.
    Epoch(u32),
    /// By a replica that serves this later epoch.
    Moved(u32),
}

/// How an attempt stands that nobody learned.
#[derive(Clone, Copy, PartialEq, Eq)]
pub enum Left {
    /// It found no replica to read at.
    Unread,
    /// Too few replicas voted, or promised the last takeover; this many did.
    Short(u32),
    /// Too few replicas accepted the proposal; this many did.
    Unaccepted(u32),
    /// Its own coordinator stopped.
    Stopped,
    /// The last takeover could propose neither outcome.
    Unclear { ok: u32, not_ok: u32 },
}

/// How an attempt ended.
#[derive(Clone, Copy, PartialEq, Eq)]
pub enum State {
    Learned { outcome: Outcome, path: Path },
    Left(Left),
}
