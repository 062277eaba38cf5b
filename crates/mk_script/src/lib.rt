//! Scripts and their text.
#![tactic(auto)]

mod error;
mod fields;
mod items;
mod keys;
mod lines;
mod parsing;
mod printing;
mod reader;
mod script;
mod words;

pub use lines::{
    ClientLine, Fate, FaultLine, Lines, Name, Point, Round, StopLine, TakeoverLine, TxnLine,
};
pub use mk_text::TextFault;
pub use mk_words::GlobalLine;
pub use parsing::{ScriptError, parse};
pub use printing::print;
pub use script::Script;
