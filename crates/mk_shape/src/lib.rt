//! Whether a head and rounds have the shape of a run: every number in range, and every table as large as the others ask for.
#![tactic(auto)]

mod acts;
mod attempts;
mod lines;
mod numbers;
mod rounds;
mod steps;

pub use attempts::Attempts;
pub use lines::line_fits;
pub use rounds::round_fits;
