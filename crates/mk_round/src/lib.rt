//! A round of a script: its columns begin, and work to its end.
#![tactic(auto)]

mod beginning;
mod following;
mod store;
mod taking;

pub use following::rounds_follow;
pub use mk_history::RoundLog;
pub use mk_words::{GlobalAnswer, GlobalLine};
pub use store::Store;
