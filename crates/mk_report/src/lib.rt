//! What is written of a run: its report, its summary and its JSON.
#![tactic(auto)]

mod json;
mod laws;
mod lines;
mod parts;
mod report;
mod run_report;
mod stores;
mod whole_json;

pub use laws::{commits_are_distinct, commits_are_told, commits_are_transactions};
pub use lines::{put_attempt, put_end, put_global, put_store, put_summed};
pub use parts::{put_conflict, put_id, put_left, put_path, put_stamp};
pub use report::{put_report, put_summary};
pub use run_report::{copy_of, json_text, report_text, summary_text};
pub use stores::{by_name, put_held, put_stores, put_sum};
pub use whole_json::json_bytes;
