//! Parts of reading traces: places, fields and tables; and the text of a run.
#![tactic(auto)]

mod fields;
pub mod places;
mod rounds;
mod writing;

pub use fields::{are_writes, begins_with_digit, below, is_text_of, is_up_to, version_of};
pub use rounds::{empty_journals, empty_logs, push_entry, push_step, raise};
pub use writing::write_text;
