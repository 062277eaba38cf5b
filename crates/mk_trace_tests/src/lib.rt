//! Tests of traces, of what is read of them and what is written.
#![tactic(auto)]

#[cfg(test)]
mod reading;
