//! The fates of messages, and where attempts stop, by a script's fault and stop lines.
#![tactic(auto)]

mod rules;

pub use rules::Rules;
