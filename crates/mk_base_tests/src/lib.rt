//! Tests of the crates below the columns, a file a crate.
#![tactic(auto)]

#[cfg(test)]
mod cell;
#[cfg(test)]
mod client;
#[cfg(test)]
mod coord;
#[cfg(test)]
mod io;
#[cfg(test)]
mod msg;
#[cfg(test)]
mod names;
#[cfg(test)]
mod proc;
#[cfg(test)]
mod quorum;
#[cfg(test)]
mod record;
#[cfg(test)]
mod replay;
#[cfg(test)]
mod takeover;
#[cfg(test)]
mod text;
#[cfg(test)]
mod trim;
#[cfg(test)]
mod txn;
#[cfg(test)]
mod valid;
