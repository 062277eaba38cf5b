//! An attempt of a transaction at its client: the keys that it fetches, and what it then writes.
#![tactic(auto)]

mod attempt;
mod buffer;

pub use attempt::{ClientTxn, computed_writes, next_wanted};
