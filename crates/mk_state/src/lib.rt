//! The columns, the cells and the epochs of the whole, and what lies between the work of two rounds: how a round begins,
//! and what global lines do.
#![tactic(auto)]

mod beginning;
mod handing;
mod lines;
mod starting;
mod whole;

pub use mk_words::{GlobalAnswer, GlobalLine};
pub use whole::Whole;
