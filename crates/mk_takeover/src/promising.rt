//! Replies in the order of their replicas.
ghost use Rattle.std.specs.Prelude.{◌≡◌, count_by, map};
ghost use Rattle.mk_txn.specs.Outcomes.{higher as higher_of, highest};
ghost use Rattle.mk_quorum.specs.Slots.{passes};
ghost use Rattle.mk_words.specs.Picks.{is_promise as promises, is_ok_promise as promises_ok, is_other_promise as promises_other, accepted_in as acceptance};

use mk_txn::{Accepted, Vote};
use mk_words::Told;

fn is_promise(reply: &Option<Told>) -> bool
    ensures { result ≡ passes promises reply.now }
{
    matches!(reply, Some(Told { last: None, .. }))
}

fn is_ok_promise(reply: &Option<Told>) -> bool
    ensures { result ≡ passes promises_ok reply.now }
{
    matches!(
        reply,
        Some(Told {
            vote: Some(Vote::Ok),
            last: None,
            ..
        })
    )
}

fn is_other_promise(reply: &Option<Told>) -> bool
    ensures { result ≡ passes promises_other reply.now }
{
    is_promise(reply) && !is_ok_promise(reply)
}

/// How many replicas promised the view.
pub fn count_promises(told: &[Option<Told>]) -> usize
    ensures { result ≡ count_by (passes promises) told.now }
{
    let mut count = 0;
    for reply in told {
        if is_promise(reply) {
            count += 1;
        }
    }
    count
}

/// How many promised it with an Ok vote.
pub fn count_oks(told: &[Option<Told>]) -> usize
    ensures { result ≡ count_by (passes promises_ok) told.now }
{
    let mut count = 0;
    for reply in told {
        if is_ok_promise(reply) {
            count += 1;
        }
    }
    count
}

/// How many promised it without one.
pub fn count_others(told: &[Option<Told>]) -> usize
    ensures { result ≡ count_by (passes promises_other) told.now }
{
    let mut count = 0;
    for reply in told {
        if is_other_promise(reply) {
            count += 1;
        }
    }
    count
}

fn accepted_in(reply: &Option<Told>) -> Option<Accepted>
    ensures { result ≡ acceptance reply.now }
{
    match reply {
        Some(told) => told.accepted,
        None => None,
    }
}

fn higher(first: Option<Accepted>, second: Option<Accepted>) -> Option<Accepted>
    ensures { result ≡ higher_of first second }
{
    match (first, second) {
        (Some(one), Some(other)) if one.view < other.view => second,
        (Some(_), _) => first,
        (None, _) => second,
    }
}

/// The accepted outcome of the highest view, of the lowest-numbered replica where views tie.
pub fn highest_accepted(told: &[Option<Told>]) -> Option<Accepted>
    ensures { result ≡ highest (map acceptance told.now) }
{
    let mut found = None;
    for reply in told {
        found = higher(found, accepted_in(reply));
    }
    found
}
