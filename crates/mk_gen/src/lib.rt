//! Scripts that are made from a number.
#![tactic(auto)]

mod draw;
mod keys;
mod quiet;
mod whole;

pub use quiet::generated_are_quiet;
pub use whole::generate;
