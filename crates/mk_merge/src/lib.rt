//! Bases of epochs, the promises from which one is merged, and the views that columns have of replicas.
#![tactic(auto)]

mod ascending;
mod choosing;
mod clashing;
mod handing;
mod joining;
mod keeping;
mod listing;
mod merging;
mod ordering;
mod rebuilding;
mod reporting;
mod spanning;

pub use choosing::counted;
pub use keeping::Keeping;
pub use merging::added;
use mk_trim::Kept;
pub use mk_trim::ReplicaView;
use mk_txn::{Marks, NoMemory};
use mk_words::Entry;
pub use mk_words::{Fated, Phase};
pub use rebuilding::Left;
use std::marker::Model;

/// What an epoch begins with: transactions with their outcomes, in order of their numbers, and the marks of clients.
#[derive(Drop)]
pub struct Base {
    list: Vec<Fated>,
    // the outcomes that the marks do not cover, and the marks
    kept: Kept,
}

impl Model for Base {
    ghost use Rattle.std.specs.Prelude.{◌≡◌};
    ghost use Rattle.mk_words.specs.Bases.{BaseState, IsBase, kept_of};

    ghost Value = { BaseState };

    ghost view = { λ base. record { list = base.list.items; marks = base.kept.marks } };

    ghost invariant = { λ base. IsBase (record { list = base.list.items; marks = base.kept.marks }) × (base.kept ≡ kept_of (record { list = base.list.items; marks = base.kept.marks })) };
}

/// What a merge adds to a base: attempts with their outcomes, in order of their numbers, and the marks that then hold.
#[derive(Drop)]
pub struct Addition {
    pub list: Vec<Fated>,
    pub marks: Marks,
}

/// The entries of all columns at one replica.
#[derive(Drop)]
pub struct Entries {
    entries: Vec<Entry>,
}

impl Model for Entries {
    ghost use Rattle.std.specs.Prelude.{List};
    ghost use Rattle.mk_words.specs.declared.Entry.{Entry};

    ghost Value = { List Entry };

    ghost view = { λ all. all.entries.items };
}

/// What a replica hands in for an epoch change: the epoch it has adopted with that epoch's base, its entries, its marks.
#[derive(Drop)]
pub struct Promise<B> {
    pub replica: u32,
    pub adopted: u32,
    pub base: B,
    pub entries: Entries,
    pub marks: Marks,
}

/// Why no base is made.
#[derive(Clone, Copy, Debug, PartialEq, Eq)]
pub enum MergeError {
    /// There are only so many promises, or the leader's is missing.
    Short(u32),
    NoMemory,
}

impl From<NoMemory> for MergeError {
    ghost use Rattle.std.specs.Prelude.{◌≡◌};
    ghost use Rattle.mk_merge.specs.declared.MergeError.TheVariants as errors;

    ghost from_gives = { λ _ error. error ≡ errors.NoMemory };

    fn from(_: NoMemory) -> MergeError {
        MergeError::NoMemory
    }
}
