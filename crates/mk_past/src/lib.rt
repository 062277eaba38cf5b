//! What the store held at a stamp, and why an attempt ended as it did.
#![tactic(auto)]

mod index;
mod laws;
mod order;
mod past;
mod reasons;
mod refusals;

pub use index::Past;
pub use laws::{attempts_have_lines, commits_are_listed, lines_are_reasoned};
pub use mk_history::{Left, Path, State};
pub use mk_run::Run;
pub use mk_txn::Conflict;
pub use reasons::{Reasoned, why};
