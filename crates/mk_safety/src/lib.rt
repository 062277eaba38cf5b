//! What holds of every legal run.
//!
//! The functions do nothing: what they promise is the law. It rests on those that they call.
#![tactic(auto)]

ghost use Rattle.mk_safety.specs.FirstPaths.{FirstHasPath, FirstPathIsOwn};
ghost use Rattle.mk_safety.specs.Settled.{MarksAreCovered};
ghost use Rattle.mk_safety.specs.Agreeing.{LearningsRest, LearningsAgree};
ghost use Rattle.mk_safety.specs.Commits.{CommitsAreKnown, KnownAreCommits, CommitsAreDistinct, VersionsWereCommitted, NoneBetween, CommitsAreExplained};
ghost use Rattle.mk_safety.specs.Naming.{LearningsAreNamed};
ghost use Rattle.mk_history.specs.Safety.{LegalRunsAreSafe};

/// What is learned first of an attempt in a legal run has a path of its own, and is shown with it.
pub fn firsts_have_paths()
    ensures first { FirstHasPath }
    ensures own { FirstPathIsOwn }
{
    mk_record_laws::learnings_are_listed();
    mk_run_laws::runs_reach_moments();
    mk_run_laws::moments_are_of_runs();
    mk_run_laws::learnings_have_sources();
}

/// All that is learned rests on a decision or on the base of an entered epoch, and whatever two learn of one attempt agrees.
pub fn learnings_agree()
    ensures rest { LearningsRest }
    ensures agree { LearningsAgree }
{
    mk_epoch_laws::bases_hold();
    mk_run_laws::rounds_join();
    mk_run_laws::moments_are_of_runs();
    mk_run_laws::columns_hold();
    mk_run_laws::ends_join();
    mk_run_laws::learnings_have_sources();
    mk_base_laws::bases_have_members();
    mk_fate_laws::decisions_stand();
}

/// What is learned to commit in a legal run is explained on one copy: each read gave what the commits below its reader's stamp
/// left there.
pub fn commits_are_explained()
    ensures known { CommitsAreKnown }
    ensures only { KnownAreCommits }
    ensures distinct { CommitsAreDistinct }
    ensures versions { VersionsWereCommitted }
    ensures between { NoneBetween }
    ensures explained { CommitsAreExplained }
{
    learnings_agree();
    mk_basic_laws::cells_remember();
    mk_copy_laws::latest_commits_stand();
    mk_merge_laws::fates_are_composed();
    mk_column_laws::stamps_name_attempts();
    mk_column_laws::key_acts_have_origins();
    mk_record_laws::attempts_stand_once();
    mk_record_laws::learnings_are_listed();
    mk_epoch_laws::bases_hold();
    mk_run_laws::rounds_join();
    mk_run_laws::runs_reach_moments();
    mk_run_laws::epochs_are_dated();
    mk_run_laws::columns_hold();
    mk_run_laws::moments_are_of_runs();
    mk_run_laws::ends_join();
    mk_run_laws::learnings_have_sources();
    mk_run_laws::tenures_hold();
    mk_base_laws::bases_have_members();
    mk_base_laws::votes_fit_bases();
    mk_fate_laws::decisions_stand();
    mk_fate_laws::bases_have_reasons();
}

/// Every abort that is learned has a cause that names what happened.
pub fn learnings_are_named()
    ensures { LearningsAreNamed }
{
    mk_epoch_laws::bases_hold();
    mk_run_laws::rounds_join();
    mk_run_laws::moments_are_of_runs();
    mk_run_laws::columns_hold();
    mk_run_laws::ends_join();
    mk_run_laws::learnings_have_sources();
    mk_base_laws::bases_have_members();
    mk_fate_laws::bases_have_reasons();
    mk_cause_laws::refusals_have_owners();
}

/// The marks of each base cover only attempts that their clients have done with.
pub fn marks_cover_settled()
    ensures { MarksAreCovered }
{
    mk_base_laws::votes_fit_bases();
    mk_run_laws::ends_join();
}

/// Every legal run is safe: what is learned agrees, the commits are explained on one copy, aborts name their causes, and marks
/// cover only what is settled.
pub fn legal_runs_are_safe()
    ensures { LegalRunsAreSafe }
{
    learnings_agree();
    commits_are_explained();
    learnings_are_named();
    marks_cover_settled();
}
