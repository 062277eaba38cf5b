//! The call that the program makes: a script is read or made, run on the whole store, and a text of its run is written.
#![tactic(auto)]

mod done;
mod form;
mod reading;
mod telling;
mod top;

pub use done::Done;
pub use mk_ending::Why;
pub use mk_kept::Run;
pub use top::run_top;
