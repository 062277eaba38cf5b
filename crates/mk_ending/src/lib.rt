//! How the calls of the program end: why a call wrote no whole text, and its status; and what the calls share.
#![tactic(auto)]

mod texts;
mod why;
mod words;

pub use mk_spelling::TextFault;
pub use texts::write_text;
pub use why::{Grammar, Why};
pub use words::is_word;
