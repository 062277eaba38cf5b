//! Votes in the order of their replicas.
ghost use Rattle.std.specs.Prelude.{◌≡◌, count_by};
ghost use Rattle.mk_txn.specs.Outcomes.{is_ok_vote};
ghost use Rattle.mk_quorum.specs.Slots.{passes};
ghost use Rattle.mk_words.specs.Rulings.{is_abort_vote, any_vote, first_refusal as refusal_of};

use mk_txn::{Cause, Outcome, Vote};

fn is_ok(vote: &Option<Vote>) -> bool
    ensures { result ≡ passes is_ok_vote vote.now }
{
    matches!(vote, Some(Vote::Ok))
}

fn is_abort(vote: &Option<Vote>) -> bool
    ensures { result ≡ passes is_abort_vote vote.now }
{
    matches!(vote, Some(Vote::Abort(_)))
}

fn is_there(vote: &Option<Vote>) -> bool
    ensures { result ≡ passes any_vote vote.now }
{
    vote.is_some()
}

/// How many replicas voted for a commit.
pub fn count_oks(votes: &[Option<Vote>]) -> usize
    ensures { result ≡ count_by (passes is_ok_vote) votes.now }
{
    votes.iter().filter(|vote| is_ok(vote)).count()
}

/// How many replicas refused.
pub fn count_aborts(votes: &[Option<Vote>]) -> usize
    ensures { result ≡ count_by (passes is_abort_vote) votes.now }
{
    votes.iter().filter(|vote| is_abort(vote)).count()
}

/// How many replicas voted.
pub fn count_votes(votes: &[Option<Vote>]) -> usize
    ensures { result ≡ count_by (passes any_vote) votes.now }
{
    votes.iter().filter(|vote| is_there(vote)).count()
}

/// The abort by the conflict that the lowest-numbered replica that refused names.
pub fn first_refusal(votes: &[Option<Vote>]) -> Outcome
    ensures { result ≡ refusal_of votes.now }
{
    for vote in votes {
        if let Some(Vote::Abort(conflict)) = vote {
            return Outcome::Abort(Cause::Conflict(*conflict));
        }
    }
    Outcome::Abort(Cause::Takeover(0))
}
