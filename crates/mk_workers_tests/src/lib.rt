//! Tests of workers: each column has a thread of its own, and all go on to their end in every order of the threads.
#![tactic(auto)]

#[cfg(test)]
mod gates;
#[cfg(test)]
mod lanes;
#[cfg(test)]
mod rounds;
#[cfg(test)]
mod start;
