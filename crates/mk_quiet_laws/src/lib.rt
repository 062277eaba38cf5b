//! Quiet scripts commit on the fast path.
//!
//! The functions do nothing: what they promise is the law.
#![tactic(auto)]

ghost use Rattle.mk_quiet_laws.specs.CommitFast.{QuietCommitsFast};
ghost use Rattle.mk_quiet_laws.specs.Sequence.{KeysAreClients, QuietChecksAreOkay};
ghost use Rattle.mk_quiet_laws.specs.CellCommits.{CommittedWriteIsGone, CommittedReadIsGone, CommittedWriteRaises, CommittedReadRaises};
ghost use Rattle.mk_quiet_laws.specs.QuietRounds.{QuietRunsHaveOneRound, QuietMomentsAreStandings, AllServeFirst, QuietIsUndisturbed};
ghost use Rattle.mk_quiet_laws.specs.Taking.{VotesAreSent, EntriesVote, TakenStays, VotesHaveSlots, VotesAreCounted};

/// A committed stamp pends no more at its cell, and what stands there is not below it.
pub fn commits_leave_cells()
    ensures write_gone { CommittedWriteIsGone }
    ensures read_gone { CommittedReadIsGone }
    ensures write_raises { CommittedWriteRaises }
    ensures read_raises { CommittedReadRaises }
{
    mk_basic_laws::cells_remember();
}

/// A quiet script has one round without global lines, in which every replica serves epoch 0 and every message is delivered.
pub fn quiet_runs_have_one_round()
    ensures one_round { QuietRunsHaveOneRound }
    ensures moments { QuietMomentsAreStandings }
    ensures serving { AllServeFirst }
    ensures undisturbed { QuietIsUndisturbed }
{}

/// A replica's vote was sent, and an entry without one is under validation or came otherwise than by a Validate.
pub fn votes_are_sent()
    ensures sent { VotesAreSent }
    ensures voted { EntriesVote }
{}

/// Once a replica took a Validate it has an entry, and once it took a Decide a final one.
pub fn what_is_taken_stays()
    ensures { TakenStays }
{}

/// A vote that an own coordinator took is counted, unless it stopped or has learned.
pub fn votes_are_counted()
    ensures slots { VotesHaveSlots }
    ensures counted { VotesAreCounted }
{}

/// In a run that goes by a quiet script attempts touch keys of their own clients alone, no check is refused, and every attempt
/// commits on the fast path.
pub fn quiet_scripts_commit_fast()
    ensures keys { KeysAreClients }
    ensures okay { QuietChecksAreOkay }
    ensures fast { QuietCommitsFast }
{
    mk_basic_laws::cells_remember();
    mk_column_laws::events_are_sorted();
    mk_column_laws::stamps_name_attempts();
    mk_column_laws::messages_are_true();
    mk_column_laws::key_acts_have_origins();
    mk_record_laws::attempts_stand_once();
    mk_record_laws::learnings_are_listed();
    mk_record_laws::commits_are_done();
    mk_run_laws::runs_reach_moments();
    mk_run_laws::columns_hold();
    mk_run_laws::moments_are_of_runs();
    mk_run_laws::ends_join();
    mk_run_laws::learnings_have_sources();
    mk_safety::firsts_have_paths();
    mk_driver_laws::has_come_goes_on();
}
