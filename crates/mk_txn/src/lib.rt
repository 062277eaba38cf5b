//! Stamps, values, transactions, votes and outcomes: the words that the whole store speaks in.
#![tactic(auto)]

use std::alloc::{AllocError, AllocFailed};

mod clashing;
mod faults;
mod marking;
mod stamping;
mod transaction;

pub use clashing::conflicts;
pub use faults::TxnError;
pub use marking::Marks;
pub use stamping::{id_precedes, later, next_stamp, precedes, same_id, same_stamp};
pub use transaction::Txn;

/// The greatest time of a stamp, 2^62.
pub const LAST_TIME: u64 = 4_611_686_018_427_387_904;

/// What a key holds: a number, or nothing since it was deleted.
#[derive(Clone, Copy, PartialEq, Eq)]
pub enum Value {
    Number(u64),
    Absent,
}

/// A point in the order of transactions: a time, and the client's number where times tie.
#[derive(Clone, Copy, PartialEq, Eq, PartialOrd, Ord)]
pub struct Stamp {
    pub time: u64,
    pub client: u32,
}

/// The number of an attempt: its client, and its place among that client's attempts, from 1.
#[derive(Clone, Copy, PartialEq, Eq, PartialOrd, Ord, Hash)]
pub struct TxnId {
    pub client: u32,
    pub seq: u32,
}

/// One read: the key, and the version and value that it gave.
#[derive(Clone, Copy, PartialEq, Eq)]
pub struct ReadItem {
    pub key: u32,
    pub version: Stamp,
    pub value: Value,
}

/// One write: the key, and what it is to hold.
#[derive(Clone, Copy, PartialEq, Eq)]
pub struct WriteItem {
    pub key: u32,
    pub value: Value,
}

/// Why a check at a key was refused.
#[derive(Clone, Copy, PartialEq, Eq)]
pub enum Reason {
    /// A write later than the version read was committed.
    ReadStale,
    /// An earlier write is pending.
    ReadPending,
    /// A later read was committed.
    WriteLate,
    /// A later read is pending.
    WritePending,
}

/// A refused check: the key, the reason, and the stamp of the other transaction.
#[derive(Clone, Copy, PartialEq, Eq)]
pub struct Conflict {
    pub key: u32,
    pub reason: Reason,
    pub stamp: Stamp,
}

/// What a replica answers to a validation.
#[derive(Clone, Copy, PartialEq, Eq)]
pub enum Vote {
    Ok,
    Abort(Conflict),
}

/// Why a transaction aborts.
#[derive(Clone, Copy, PartialEq, Eq)]
pub enum Cause {
    Conflict(Conflict),
    /// The takeover of this view found no trace of a commit.
    Takeover(u32),
    /// The change to this epoch found no trace of a commit.
    Epoch(u32),
}

/// How a transaction ends.
#[derive(Clone, Copy, PartialEq, Eq)]
pub enum Outcome {
    Commit,
    Abort(Cause),
}

/// An outcome that a replica accepted, with the view in which it was proposed.
#[derive(Clone, Copy, PartialEq, Eq)]
pub struct Accepted {
    pub view: u32,
    pub outcome: Outcome,
}

/// What an epoch's base knows of an attempt.
#[derive(Clone, Copy, PartialEq, Eq)]
pub enum Known {
    Outcome(Outcome),
    /// The base has no outcome of it.
    Absent,
    /// Its client has learned the outcome, and the base dropped it.
    Forgotten,
}

/// Want of memory, where it is the only refusal.
#[derive(Clone, Copy, Debug)]
pub struct NoMemory;

impl From<AllocError> for NoMemory {
    fn from(_: AllocError) -> NoMemory {
        NoMemory
    }
}

impl<T: Drop> From<AllocFailed<T>> for NoMemory {
    fn from(_: AllocFailed<T>) -> NoMemory {
        NoMemory
    }
}
