//! The rounds of a run replayed.
#![tactic(auto)]

mod globals;
mod journals;
mod logs;
mod matchers;
mod matching;
mod replaying;
mod turns;
mod working;

pub use mk_verdict::{Flaw, Place, PlacedFlaw};
pub use mk_words::{GlobalAnswer, GlobalEntry, GlobalLine, JournalEntry, Step};
pub use replaying::replay;
