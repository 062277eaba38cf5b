//! Tests of reports, summaries and JSON.
#![tactic(auto)]

#[cfg(test)]
mod report;
#[cfg(test)]
mod whole;
