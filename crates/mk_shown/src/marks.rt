//! The mark stamp of a column, from its stamped attempts.
ghost use Rattle.std.specs.Prelude.{◌≡◌, length};
ghost use Rattle.mk_feed_words.specs.Feed.{earlier_stamp};
ghost use Rattle.mk_feed_words.specs.MarkStamps as spec;
ghost use Rattle.mk_shown.specs.Marks.{earlier_of as least_of, first_open as first_of_open, least_last as last_least, greatest_between as between, is_between as lies_between};

use mk_txn::{Stamp, TxnId, later, precedes};
use std::marker::Model;

/// The least stamp.
pub(crate) const ZERO: Stamp = Stamp { time: 0, client: 0 };

/// The stamp of the mark that comes last.
pub(crate) const LAST: Stamp = Stamp {
    time: 4_611_686_018_427_387_904,
    client: 64,
};

/// A stamped attempt, and whether it is closed: decided, or settled by an epoch.
#[derive(Drop)]
pub(crate) struct StampedAttempt {
    pub(crate) id: TxnId,
    pub(crate) stamp: Stamp,
    pub(crate) closed: bool,
}

impl Model for StampedAttempt {
    ghost use Rattle.mk_feed_words.specs.MarkStamps.{Stamped};

    ghost Value = { Stamped };

    ghost view = { λ s. record { id = s.id; stamp = s.stamp; closed = s.closed } };
}

/// The one of two stamps that is not after the other.
pub(crate) fn earlier(a: Stamp, b: Stamp) -> Stamp
    ensures { result ≡ earlier_stamp a b }
{
    if precedes(b, a) { b } else { a }
}

// The same, where there may be no second.
fn earlier_of(a: Stamp, b: Option<Stamp>) -> Stamp
    ensures { result ≡ least_of a b }
{
    match b {
        Some(b) => earlier(a, b),
        None => a,
    }
}

// The last stamp of the client, and 0.0 where it has none.
fn last_of(stamped: &[StampedAttempt], client: u32) -> Stamp
    ensures { result ≡ spec.last_of stamped.now client }
{
    let mut last = ZERO;
    'each: for place in (0..stamped.len()).rev() {
        let attempt = &stamped[place];
        if attempt.id.client == client {
            last = later(attempt.stamp, last);
        }
    }
    last
}

// The least of the last stamps of these clients.
fn least_last(stamped: &[StampedAttempt], clients: &[u32]) -> Option<Stamp>
    ensures { result ≡ last_least stamped.now clients.now }
{
    let mut least = None;
    'each: for place in (0..clients.len()).rev() {
        least = Some(earlier_of(last_of(stamped, clients[place]), least));
    }
    least
}

// The least stamp of an attempt that is not closed.
fn first_open(stamped: &[StampedAttempt]) -> Option<Stamp>
    ensures { result ≡ first_of_open stamped.now }
{
    let mut first = None;
    'each: for place in (0..stamped.len()).rev() {
        let attempt = &stamped[place];
        if !attempt.closed {
            first = Some(earlier_of(attempt.stamp, first));
        }
    }
    first
}

// Below the first, and not above the last, where there are these.
fn is_between(stamp: Stamp, first: Option<Stamp>, last: Option<Stamp>) -> bool
    ensures { result ≡ lies_between stamp first last }
{
    let below = match first {
        Some(first) => precedes(stamp, first),
        None => true,
    };
    let above = match last {
        Some(last) => precedes(last, stamp),
        None => false,
    };
    below && !above
}

// The greatest stamp between these, and 0.0 where there is none.
fn greatest_between(stamped: &[StampedAttempt], first: Option<Stamp>, last: Option<Stamp>) -> Stamp
    ensures { result ≡ between first last stamped.now }
{
    let mut greatest = ZERO;
    'each: for place in (0..stamped.len()).rev() {
        let attempt = &stamped[place];
        if is_between(attempt.stamp, first, last) {
            greatest = later(attempt.stamp, greatest);
        }
    }
    greatest
}

/// The mark stamp over these clients and attempts; where there is no client, nothing more can come.
pub(crate) fn mark_for(stamped: &[StampedAttempt], clients: &[u32]) -> Stamp
    ensures { result ≡ spec.mark_for clients.now stamped.now }
{
    if clients.is_empty() {
        return LAST;
    }
    greatest_between(stamped, first_open(stamped), least_last(stamped, clients))
}
