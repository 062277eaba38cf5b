//! One core number on all replicas, with its clients, records, marks and messages.
#![tactic(auto)]

ghost use Rattle.std.specs.Prelude.{◌≡◌, ◌==◌};
ghost use Rattle.std.specs.List.{list_any};
ghost use Rattle.mk_model.specs.Conditions.{writes_fit};
ghost use Rattle.mk_txn.specs.Transactions.{are_distinct as keys_differ, write_keys};

mod answering;
mod attempts;
mod backup;
mod beginning;
mod begun;
mod clients;
mod column;
mod conditions;
mod dispatch;
mod growing;
mod hearing;
mod hearing_takeover;
mod learned;
mod leaving;
mod outlet;
mod parts;
mod replica;
mod sending;
mod stamping;
mod stepping;
mod takeovers;
mod taking;
mod work;

pub use column::Column;
pub use growing::grows_through;
pub use learned::{Learned, Way};
pub use mk_history::Left;
pub use mk_trim::ReplicaView;
use mk_txn::{NoMemory, Outcome, ReadItem, Txn, TxnId, WriteItem};
pub use mk_words::{KeyCall, Phase, Step, Writes};
pub use outlet::{NoOutlet, Outlet};
use std::alloc::Global;
use std::marker::Model;

/// The reads of an attempt, in order of mention.
#[derive(Drop)]
pub struct Reads {
    items: Vec<ReadItem>,
}

impl Model for Reads {
    ghost use Rattle.std.specs.Prelude.{List};
    ghost use Rattle.mk_txn.specs.declared.ReadItem.{ReadItem};
    ghost use Rattle.mk_column.specs.Readings.{ReadsFit};

    ghost Value = { List ReadItem };

    ghost view = { λ reads. reads.items.items };

    ghost invariant = { λ reads. ReadsFit reads.items.items };
}

impl Reads {
    ghost use Rattle.std.specs.Prelude.{◌≡◌, ◌==◌, ◌++◌, ◌∷◌, [], length, true, OnOk, OnErr};
    ghost use Rattle.std.specs.List.{list_any};
    ghost use Rattle.mk_column.specs.Readings.{may_join};

    fn new(alloc: Global) -> Reads
        ensures { result ≡ [] }
    {
        Reads {
            items: Vec::new(alloc),
        }
    }

    fn has(&self, key: u32) -> bool
        ensures { result ≡ list_any (λ item. item.key == key) self.now }
    {
        self.items.iter().any(|item| item.key == key)
    }

    // Whether the key was not read yet, and fewer than 16 were.
    fn may_take(&self, key: u32) -> bool
        ensures { result ≡ may_join key self.now }
    {
        !self.has(key) && self.items.len() < 16
    }

    fn is_empty(&self) -> bool
        ensures { result ≡ (length self.now == 0) }
    {
        self.items.len() == 0
    }

    pub fn as_slice(&self) -> &[ReadItem]
        ensures { result.now ≡ self.now }
    {
        self.items.as_slice()
    }

    fn push(&mut self, item: ReadItem) -> Result<(), NoMemory>
        requires { may_join item.key self.old ≡ true }
        ensures ok { OnOk result (self.new ≡ self.old ++ item ∷ []) }
        ensures err { OnErr result (self.new ≡ self.old) }
    {
        self.items.push(item)?;
        Ok(())
    }
}

// At most 16 writes of different keys, each of which there is.
fn fit(writes: &Writes, keys: u32) -> bool
    ensures { result ≡ writes_fit keys writes.now }
{
    writes.as_slice().len() <= 16 && are_distinct(writes.as_slice()) && writes.are_below(keys)
}

// Whether no key is written twice.
fn are_distinct(items: &[WriteItem]) -> bool
    ensures { result ≡ keys_differ (write_keys items.now) }
{
    let Some((first, rest)) = items.split_first() else {
        return true;
    };
    !has_key(rest, first.key) && are_distinct(rest)
}

fn has_key(items: &[WriteItem], key: u32) -> bool
    ensures { result ≡ list_any (λ item. item.key == key) items.now }
{
    items.iter().any(|item| item.key == key)
}

/// Why a step was not done.
#[derive(Clone, Copy, PartialEq, Eq)]
pub enum ColumnError {
    /// The step's first condition that fails has this number.
    NotEnabled(u8),
    NoMemory,
}

impl From<NoMemory> for ColumnError {
    ghost use Rattle.std.specs.Prelude.{◌≡◌};
    ghost use Rattle.mk_column.specs.declared.ColumnError.TheVariants as errors;

    ghost from_gives = { λ _ error. error ≡ errors.NoMemory };

    fn from(_: NoMemory) -> ColumnError {
        ColumnError::NoMemory
    }
}

/// An attempt as it stands: `proposed` and `learned` are its own coordinator's.
#[derive(Drop)]
pub struct Attempt {
    pub id: TxnId,
    pub replica: u32,
    pub epoch: u32,
    pub txn: Option<Txn>,
    pub unread: bool,
    pub stopped: bool,
    pub proposed: Option<Outcome>,
    pub learned: Option<Outcome>,
    pub reads: Reads,
}
