//! Tests of the calls that read traces.
#![tactic(auto)]

#[cfg(test)]
mod check;
