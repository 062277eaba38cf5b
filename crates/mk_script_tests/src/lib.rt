//! Tests of scripts, and of what a script does to messages and attempts.
#![tactic(auto)]

#[cfg(test)]
mod faults;
#[cfg(test)]
mod script;
