//! How an attempt ended.
use mk_history::State;
use mk_txn::{ReadItem, Stamp, TxnId};
use mk_words::Writes;
use std::marker::Model;

/// What an attempt read, in order of mention.
#[derive(Drop)]
pub struct Reads {
    items: Vec<ReadItem>,
}

impl Model for Reads {
    ghost use Rattle.std.specs.Prelude.{List};
    ghost use Rattle.mk_txn.specs.declared.ReadItem.{ReadItem};

    ghost Value = { List ReadItem };

    ghost view = { λ reads. reads.items.items };
}

impl Reads {
    ghost use Rattle.std.specs.Prelude.{◌≡◌};

    pub fn of(items: Vec<ReadItem>) -> Reads
        ensures { result ≡ items.items }
    {
        Reads { items }
    }

    pub fn as_slice(&self) -> &[ReadItem]
        ensures { result.now ≡ self.now }
    {
        self.items.as_slice()
    }
}

/// An attempt, and how it ended. One that was never stamped has no stamp, and neither reads nor writes.
#[derive(Drop)]
pub struct AttemptLine {
    pub id: TxnId,
    pub stamp: Option<Stamp>,
    pub reads: Reads,
    pub writes: Writes,
    pub state: State,
}

/// How many attempts were learned to commit, to abort, and not at all.
#[derive(Clone, Copy, PartialEq, Eq)]
pub struct Tally {
    pub commits: u64,
    pub aborts: u64,
    pub opens: u64,
}
