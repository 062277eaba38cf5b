//! Texts as lines and words, numbers and names in them, and the faults of a line.
#![tactic(auto)]

mod fields;
mod words;

pub use fields::{is_name, is_number, name_text, need, number, ranged, value};
pub use mk_spelling::TextFault;
pub use words::{
    LineLook, cut, cut_word, five, four, look, next_word, none_left, one, three, two, two_then,
};
