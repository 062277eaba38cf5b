//! Tests of the follower.
#![tactic(auto)]

#[cfg(test)]
mod follower;
