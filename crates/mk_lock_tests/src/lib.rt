//! Tests of the lock of a key: turns, journals, and the gate inside of each turn.
#![tactic(auto)]

#[cfg(test)]
mod acts;
#[cfg(test)]
mod gates;
#[cfg(test)]
mod turns;
