//! What the marks of the feed say stays true: no commit at or below a mark comes after it.
//!
//! The function does nothing: what it promises is the law. It rests on those that it calls.
#![tactic(auto)]

ghost use Rattle.mk_mark_laws.specs.Honest.{ClosedBelowMarks, MarksAreHonest, DecidedAreCommits};

/// Whatever is stamped at or below a column's mark, now or later, is decided or settled by now; so a mark that counts what
/// is known by now counts all commits of the run.
pub fn marks_are_honest()
    ensures closed { ClosedBelowMarks }
    ensures honest { MarksAreHonest }
    ensures decided { DecidedAreCommits }
{
    mk_epoch_laws::words_hold();
    mk_epoch_laws::bases_hold();
    mk_column_laws::events_are_sorted();
    mk_column_laws::stamps_name_attempts();
    mk_record_laws::attempts_stand_once();
    mk_run_laws::runs_reach_moments();
    mk_run_laws::moments_are_of_runs();
    mk_run_laws::columns_hold();
    mk_run_laws::learnings_have_sources();
    mk_safety::learnings_agree();
    mk_safety::commits_are_explained();
}
