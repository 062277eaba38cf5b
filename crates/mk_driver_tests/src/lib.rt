//! Scripts driven to the end of their first round by a driver and its column, over plain cells.
#![tactic(auto)]

#[cfg(test)]
mod lane;
#[cfg(test)]
mod runs;
