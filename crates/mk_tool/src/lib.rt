//! The call that reads traces: `tool_top` judges anybody's trace, and tells what its store held and why its attempts ended so.
#![tactic(auto)]

mod answering;
mod asking;
mod judging;
mod reading;
mod spelling;
mod stream;
mod tool;

pub use mk_ending::{TextFault, Why};
pub use mk_run::{Flaw, Place, Verdict};
pub use tool::{ToolDone, tool_top};
