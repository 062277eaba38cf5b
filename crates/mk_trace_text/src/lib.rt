//! What the lines of traces say, and the trace of a run.
#![tactic(auto)]

mod section;

pub use section::Section;
