//! How the attempts of a run ended, and whether a run could have happened.
#![tactic(auto)]

mod counting;
mod entering;
mod firsts;
mod hearing;
mod judge;
mod line;
mod lines;
mod walk;
mod watch;

pub use judge::{Judge, check, outcomes};
pub use line::{AttemptLine, Reads, Tally};
pub use mk_history::{ColumnNumbers, Globals, Journals, Left, Logs, Path, RoundLog, Rounds, State};
pub use mk_kept::{Head, Run};
pub use mk_verdict::{Flaw, Place, Verdict};
pub use mk_words::{GlobalAnswer, GlobalEntry, GlobalLine, JournalEntry, Step, Writes};
pub use walk::Walk;
