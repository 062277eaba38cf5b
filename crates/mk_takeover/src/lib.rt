//! What a takeover of an attempt makes of what the replicas tell it.
#![tactic(auto)]

pub use mk_words::Pick;

mod promising;
mod takeover;

pub use takeover::Takeover;
