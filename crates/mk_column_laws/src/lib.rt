//! One column is safe: the laws of its events over all rounds.
#![tactic(auto)]

ghost use Rattle.mk_column_laws.specs.Laws.{MovedIsLater, RecordsKept, RecordIsPast, CountsBacked, EventsMove, ColumnsGrow, FactsHold, EntriesChangeWhereServed, RecordsMatch, MessagesAreOf, AcceptIsProposal, OneProposal, VotedTrue, AcceptedTrue, ToldTrue, MovedTrue, AcceptedWasProposed, FinalWasSent, OwnGrounds, FastGrounds, TakeoverGrounds, ViewsAgree, FastForbids, OneDecision, CommitSupport, LearnedBacked, BackingStays};
ghost use Rattle.mk_column_laws.specs.ActLaws.{ActsHold, ActsHaveOrigin, ChecksOfOk, RefusalOfAbort, ReleasesOfOk, StampReleased, CommitsOfFinal, ChecksOfStamp, NoCheckAfterCommit};
ghost use Rattle.mk_column_laws.specs.Reading.{ReadsWereGot};
ghost use Rattle.mk_column_laws.specs.Items.{ItemsFit};
ghost use Rattle.mk_column_laws.specs.Identity.{IdsOnce, StampsName};
ghost use Rattle.mk_column_laws.specs.FirstEpoch.{OneDecisionInFirstEpoch, LearningsAreDecided, LearningsAgree};

/// What each event does, that it only adds to what is there, and what holds at every moment.
pub fn events_are_sorted()
    ensures events_move { EventsMove }
    ensures columns_grow { ColumnsGrow }
    ensures facts_hold { FactsHold }
    ensures entries_change_where_served { EntriesChangeWhereServed }
    ensures records_match { RecordsMatch }
    ensures records_kept { RecordsKept }
    ensures record_is_past { RecordIsPast }
{}

/// Attempts are numbered, stamps rise, and a stamp names its attempt; what was read was got, and transactions are of keys
/// that there are.
pub fn stamps_name_attempts()
    ensures ids_once { IdsOnce }
    ensures stamps_name { StampsName }
    ensures reads_were_got { ReadsWereGot }
    ensures items_fit { ItemsFit }
{}

/// What each message says for ever.
pub fn messages_are_true()
    ensures messages_are_of { MessagesAreOf }
    ensures accept_is_proposal { AcceptIsProposal }
    ensures one_proposal { OneProposal }
    ensures voted_true { VotedTrue }
    ensures accepted_true { AcceptedTrue }
    ensures told_true { ToldTrue }
    ensures moved_true { MovedTrue }
    ensures moved_is_later { MovedIsLater }
    ensures counts_backed { CountsBacked }
    ensures accepted_was_proposed { AcceptedWasProposed }
    ensures final_was_sent { FinalWasSent }
{}

/// What proposals rest on, that views agree, and that an attempt has one decision.
pub fn views_agree()
    ensures own_grounds { OwnGrounds }
    ensures fast_grounds { FastGrounds }
    ensures takeover_grounds { TakeoverGrounds }
    ensures views_agree { ViewsAgree }
    ensures fast_forbids { FastForbids }
    ensures one_decision { OneDecision }
    ensures commit_support { CommitSupport }
{}

/// What is learned is decided, or was taught by a later epoch.
pub fn learnings_are_backed()
    ensures learned_backed { LearnedBacked }
    ensures backing_stays { BackingStays }
{}

/// Where key acts come from, and what votes tell of them.
pub fn key_acts_have_origins()
    ensures acts_hold { ActsHold }
    ensures acts_have_origin { ActsHaveOrigin }
    ensures checks_of_ok { ChecksOfOk }
    ensures refusal_of_abort { RefusalOfAbort }
    ensures releases_of_ok { ReleasesOfOk }
    ensures stamp_released { StampReleased }
    ensures commits_of_final { CommitsOfFinal }
    ensures checks_of_stamp { ChecksOfStamp }
    ensures no_check_after_commit { NoCheckAfterCommit }
{}

/// Where no epoch changes, an attempt has one decision.
pub fn one_decision_in_first_epoch()
    ensures { OneDecisionInFirstEpoch }
{}

/// Where no epoch changes, everything that is learned is decided, and so agrees.
pub fn learnings_are_decided_in_first_epoch()
    ensures decided { LearningsAreDecided }
    ensures agree { LearningsAgree }
{}
