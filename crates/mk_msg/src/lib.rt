//! The messages that a column's coordinators and replicas send each other.
#![tactic(auto)]

mod link;

pub use link::Link;
pub use mk_words::{Body, Moved, Msg, MsgKind, Told};
