//! Commits replayed on one copy of the store, and reads that they do not explain.
#![tactic(auto)]

mod explaining;
mod one_copy;
mod order;
mod reads;

pub use explaining::unexplained;
pub use one_copy::{OneCopy, replay};
pub use reads::Unexplained;
