//! What the lines of a legal run say of its commits and its attempts, and that each ended for a reason.
//!
//! The functions do nothing: what they promise is the law. It rests on those that they call.
ghost use Rattle.mk_past.specs.Laws.{AttemptsHaveLines, CommitsAreListed, LinesAreAttempts, LinesAreReasoned};

/// The transactions of the lines of a legal run that say commit are its commits.
pub fn commits_are_listed()
    ensures { CommitsAreListed }
{
    mk_run_laws::columns_hold();
    mk_run_laws::ends_join();
    mk_run_laws::moments_are_of_runs();
    mk_safety::learnings_agree();
    mk_safety::commits_are_explained();
    mk_report::commits_are_distinct();
}

/// The lines of a legal run are those of its attempts.
pub fn attempts_have_lines()
    ensures there { AttemptsHaveLines }
    ensures only { LinesAreAttempts }
{
    mk_record_laws::attempts_stand_once();
    mk_run_laws::runs_reach_moments();
    mk_run_laws::columns_hold();
    mk_run_laws::ends_join();
    mk_run_laws::moments_are_of_runs();
}

/// Each attempt of a legal run ended for a reason. One that aborted by a conflict has the check that was refused, and the
/// attempt whose stamp that check names.
pub fn lines_are_reasoned()
    ensures { LinesAreReasoned }
{
    mk_record_laws::attempts_stand_once();
    mk_run_laws::runs_reach_moments();
    mk_run_laws::columns_hold();
    mk_run_laws::ends_join();
    mk_run_laws::moments_are_of_runs();
    mk_safety::learnings_are_named();
}
