//! Names by number: a number is the first place of its name.
#![tactic(auto)]

mod names;

pub use names::{NameError, Names};
