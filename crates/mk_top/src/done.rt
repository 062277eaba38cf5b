//! How the call ended.
ghost use Rattle.std.specs.Prelude.{◌≡◌, Some, None};
ghost use Rattle.mk_top.specs.Ends.{status_of};

use mk_ending::{Grammar, Why};
use mk_kept::Run;

/// How a call ended: the status that the program ends with, the run, where there was one and its text was written whole or in
/// part, and why it wrote no whole text, if it didn't.
#[derive(Drop)]
pub struct Done {
    pub status: u8,
    pub run: Option<Run>,
    pub why: Option<Why>,
}

impl Done {
    /// A call that failed so, and has no run.
    pub fn refused(why: Why) -> Done
        ensures { result ≡ record { status = status_of (Some why) None; run = None; why = Some why } }
    {
        Done {
            status: why.status(Grammar::Script),
            run: None,
            why: Some(why),
        }
    }
}
