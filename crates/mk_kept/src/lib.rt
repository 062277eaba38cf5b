//! Runs of the whole store, as they are kept: what a run says before its rounds, and the run.
#![tactic(auto)]

mod head;
mod run;

pub use head::Head;
pub use mk_history::{ColumnNumbers, Globals, Journals, Logs, RoundLog, Rounds};
pub use mk_words::{GlobalAnswer, GlobalEntry, GlobalLine, JournalEntry, Step};
pub use run::Run;
