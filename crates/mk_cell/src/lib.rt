//! The cell of a key at a replica: what it is asked, and what it answers.
#![tactic(auto)]

pub use mk_words::{Act, Answer, JournalEntry};

mod cell;
mod laws;
mod pending;
mod places;
mod steps;

pub use cell::Cell;
pub use laws::exclusions_hold;
pub use mk_words::answers;
pub use pending::Pending;
pub use places::{Places, first_above};
pub use steps::Steps;
