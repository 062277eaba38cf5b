//! Tests of a column: texts of moves, each with what refuses it.
#![tactic(auto)]

#[cfg(test)]
mod beginning;
#[cfg(test)]
mod committing;
#[cfg(test)]
mod coordinating;
#[cfg(test)]
mod lane;
#[cfg(test)]
mod reading;
#[cfg(test)]
mod repeating;
#[cfg(test)]
mod steps;
#[cfg(test)]
mod taking_over;
