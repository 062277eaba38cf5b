//! Traces: the text of a run, and a run from its text.
#![tactic(auto)]

mod error;
mod laws;
mod reader;
mod tracing;
mod writing;

pub use error::TraceError;
pub use laws::{
    a_piece_follows_the_text, a_reader_answers_the_text, a_run_has_one_trace,
    a_trace_gives_its_run, pieces_are_the_text, read_rounds_are_a_run, rounds_so_far_are_a_run,
    the_head_stays,
};
pub use mk_text::TextFault;
pub use tracing::{TraceReader, read_trace};
pub use writing::write_trace;
