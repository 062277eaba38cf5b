//! Tests of the call that the program makes.
#![tactic(auto)]

#[cfg(test)]
mod calls;
#[cfg(test)]
mod faults;
#[cfg(test)]
mod gates;
#[cfg(test)]
mod rows;
#[cfg(test)]
mod statuses;
