//! What an attempt's own coordinator makes of votes and accepts.
#![tactic(auto)]

pub use mk_words::Ruling;

mod coord;
mod counting;

pub use coord::Coord;
