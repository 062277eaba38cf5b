//! Bases kept as lists and as snapshots: worked rows through both.
#![tactic(auto)]

#[cfg(test)]
mod tests;
