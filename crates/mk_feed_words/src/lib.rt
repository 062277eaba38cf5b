//! Words of the feed: what columns hand over, and what a follower shows of it.
#![tactic(auto)]

use mk_txn::{Stamp, Txn};

/// A commit, and the column that handed it over.
#[derive(Drop)]
pub struct Received {
    pub column: u32,
    pub txn: Txn,
}

/// The column has `count` commits with stamps at or below `upto`.
#[derive(Clone, Copy, PartialEq, Eq)]
pub struct Mark {
    pub column: u32,
    pub upto: Stamp,
    pub count: u64,
}
