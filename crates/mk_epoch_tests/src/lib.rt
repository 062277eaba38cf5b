//! Epoch changes by the code, held against the laws of epoch changes.
#![tactic(auto)]

#[cfg(test)]
mod tests;
