//! One thread for each column: workers share the locks of all keys and nothing else.
#![tactic(auto)]

mod closing;
mod dealing;
mod locks;
mod round;
mod turning;
mod worker;

pub use mk_history::Journals as KeyJournals;
pub use round::{Worked, work};
