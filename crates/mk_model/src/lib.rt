//! What columns and epochs do, as definitions.
#![tactic(auto)]
