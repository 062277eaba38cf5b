//! Tests of generated scripts.
#![tactic(auto)]

#[cfg(test)]
mod script;
