//! What the promises that count report of an attempt.
ghost use Rattle.std.specs.Prelude.{◌≡◌, ◌==◌, find, option_and_then, option_copied};
ghost use Rattle.mk_txn.specs.Outcomes.{is_ok_vote, higher as are_higher};
ghost use Rattle.mk_quorum.specs.Slots.{passes};
ghost use Rattle.mk_words.specs.Merging.{reported as is_reported, reports, first_last as is_first_last, highest_accepted as is_highest_accepted, ok_reports as count_of_oks};
ghost use Rattle.mk_merge_laws.specs.Adding.{entered_fate as is_entered_fate};

use crate::handing::Handed;
use mk_quorum::Size;
use mk_txn::{Accepted, Outcome, TxnId, Vote};
use mk_words::Entry;

// What the replica of this number hands in.
fn promise_of<'a, 'b>(promises: &'b [Handed<'a>], r: u32) -> Option<&'b Handed<'a>>
    ensures { option_copied result ≡ find (λ p. p.replica == r) promises.now }
{
    for promise in promises {
        if promise.replica() == r {
            return Some(promise);
        }
    }
    None
}

// What the replica of this number reported of the attempt.
fn reported<'a>(promises: &[Handed<'a>], id: TxnId, r: u32) -> Option<&'a Entry>
    ensures { option_copied result ≡ is_reported promises.now id r }
{
    match promise_of(promises, r) {
        Some(promise) => promise.entry(id),
        None => None,
    }
}

// The final outcome that the replica reported.
fn last_at(promises: &[Handed], id: TxnId, r: u32) -> Option<Outcome>
    ensures { result ≡ option_and_then (λ e. e.last) (is_reported promises.now id r) }
{
    reported(promises, id, r)?.last
}

// The outcome that the replica accepted, with its view.
fn accepted_at(promises: &[Handed], id: TxnId, r: u32) -> Option<Accepted>
    ensures { result ≡ option_and_then (λ e. e.accepted) (is_reported promises.now id r) }
{
    reported(promises, id, r)?.accepted
}

// Whether the replica reported an Ok vote.
fn is_ok_at(promises: &[Handed], id: TxnId, r: u32) -> bool
    ensures { result ≡ passes (λ e. passes is_ok_vote e.vote) (is_reported promises.now id r) }
{
    match reported(promises, id, r) {
        Some(entry) => entry.vote == Some(Vote::Ok),
        None => false,
    }
}

// The final outcome that the lowest-numbered replica reported.
fn first_last(promises: &[Handed], size: Size, id: TxnId) -> Option<Outcome>
    ensures { result ≡ is_first_last (reports size promises.now id) }
{
    for r in 0..size.n() {
        if let Some(outcome) = last_at(promises, id, r) {
            return Some(outcome);
        }
    }
    None
}

// Of two, the one of the higher view, and the first where the views tie.
fn higher(a: Option<Accepted>, b: Option<Accepted>) -> Option<Accepted>
    ensures { result ≡ are_higher a b }
{
    match (a, b) {
        (None, b) => b,
        (a, None) => a,
        (Some(a), Some(b)) => Some(if a.view < b.view { b } else { a }),
    }
}

// The outcome that was accepted in the highest view.
fn highest_accepted(promises: &[Handed], size: Size, id: TxnId) -> Option<Outcome>
    ensures { result ≡ is_highest_accepted (reports size promises.now id) }
{
    let mut best = None;
    for r in 0..size.n() {
        best = higher(best, accepted_at(promises, id, r));
    }
    best.map(|accepted: Accepted| accepted.outcome)
}

// How many replicas reported an Ok vote.
pub(crate) fn ok_reports(promises: &[Handed], size: Size, id: TxnId) -> u32
    ensures { result ≡ count_of_oks size promises.now id }
{
    let mut count = 0;
    for r in 0..size.n() {
        if is_ok_at(promises, id, r) {
            count += 1;
        }
    }
    count
}

// A final outcome, else the outcome that was accepted in the highest view.
pub(crate) fn entered_fate(promises: &[Handed], size: Size, id: TxnId) -> Option<Outcome>
    ensures { result ≡ is_entered_fate size promises.now id }
{
    first_last(promises, size, id).or(highest_accepted(promises, size, id))
}
