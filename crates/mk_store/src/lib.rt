//! A script run to its end, on a whole store.
#![tactic(auto)]

mod globals;
mod head;
mod run;

pub use head::head_of;
pub use run::run_script;
