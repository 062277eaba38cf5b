//! What a follower shows of each key.
ghost use Rattle.std.specs.Prelude.{◌≡◌, ◌<◌, ◌∷◌, ◌++◌, [], ℕ, List, true, false, length, if◌then◌else◌};
ghost use Rattle.mk_lists.specs.Among.{Each};
ghost use Rattle.mk_txn.specs.Stamps.{is_before};
ghost use Rattle.mk_txn.specs.LatestWrites.{after_write, after_writes};
ghost use Rattle.mk_feed_words.specs.declared.Received.{Received as Commit};
ghost use Rattle.mk_feed_words.specs.Feed.{txns_upto};
ghost use Rattle.mk_follow.specs.Kept.{CommitsStand};
ghost use Rattle.mk_follow.specs.Rules.{picks};
ghost use Rattle.mk_follow.specs.Rows.{row_at, after_txn, HasKeys, Shows};

use crate::commits::Commits;
use crate::rule::Subscription;
use mk_txn::{Stamp, Txn, Value, WriteItem, precedes};

/// A version and its value.
pub(crate) type Row = (Stamp, Value);

// One item, at the keys that are shown.
fn write_item(rows: &mut Vec<Row>, subscription: &Subscription, stamp: Stamp, item: WriteItem)
    requires { (length rows.old.items ≡ 256) × (item.key < 256) }
    ensures len { length rows.new.items ≡ 256 }
    ensures row { (key : ℕ) → picks subscription.now key ≡ true → row_at rows.new.items key ≡ after_write key stamp (row_at rows.old.items key) item }
{
    if subscription.picks(item.key) {
        let (version, _) = rows[item.key as usize];
        if !precedes(stamp, version) {
            rows[item.key as usize] = (stamp, item.value);
        }
    }
}

fn write_items(rows: &mut Vec<Row>, subscription: &Subscription, stamp: Stamp, items: &[WriteItem])
    requires { (length rows.old.items ≡ 256) × HasKeys items.now }
    ensures len { length rows.new.items ≡ 256 }
    ensures row { (key : ℕ) → picks subscription.now key ≡ true → row_at rows.new.items key ≡ after_writes key stamp (row_at rows.old.items key) items.now }
{
    for item in items {
        write_item(rows, subscription, stamp, *item);
    }
}

// A transaction, at the keys that are shown.
fn write_txn(rows: &mut Vec<Row>, subscription: &Subscription, txn: &Txn)
    requires { (length rows.old.items ≡ 256) × HasKeys txn.now.writes }
    ensures len { length rows.new.items ≡ 256 }
    ensures row { (key : ℕ) → picks subscription.now key ≡ true → row_at rows.new.items key ≡ after_txn key txn.now (row_at rows.old.items key) }
{
    write_items(rows, subscription, txn.stamp(), txn.writes());
}

// A transaction that does not lie above the stamp, at the keys that are shown.
fn admit(rows: &mut Vec<Row>, subscription: &Subscription, stamp: Stamp, txn: &Txn)
    requires { (length rows.old.items ≡ 256) × HasKeys txn.now.writes }
    ensures len { length rows.new.items ≡ 256 }
    ensures row { (key : ℕ) → picks subscription.now key ≡ true → row_at rows.new.items key ≡ (if is_before stamp txn.now.stamp then row_at rows.old.items key else after_txn key txn.now (row_at rows.old.items key)) }
{
    if !precedes(stamp, txn.stamp()) {
        write_txn(rows, subscription, txn);
    }
}

/// The rows that show the commits up to a stamp, but for the last, show that too.
pub(crate) fn admit_last(
    rows: &mut Vec<Row>,
    subscription: &Subscription,
    commits: &Commits,
    stamp: Stamp,
)
    requires wide { length rows.old.items ≡ 256 }
    requires keys { Each (λ r. HasKeys r.txn.writes) commits.now.commits }
    ensures wide { length rows.new.items ≡ 256 }
    ensures shows { (all : List Commit) (r : Commit) → commits.now.commits ≡ all ++ r ∷ [] → Shows subscription.now (txns_upto stamp all) rows.old.items → Shows subscription.now (txns_upto stamp commits.now.commits) rows.new.items }
{
    if let Some(last) = commits.last() {
        admit(rows, subscription, stamp, &last.txn);
    }
}

/// The rows that show the commits up to one stamp show those up to a later one.
pub(crate) fn rise(
    rows: &mut Vec<Row>,
    subscription: &Subscription,
    commits: &Commits,
    low: Stamp,
    high: Stamp,
)
    requires wide { length rows.old.items ≡ 256 }
    requires order { is_before high low ≡ false }
    requires stand { CommitsStand commits.now.commits }
    requires shows { Shows subscription.now (txns_upto low commits.now.commits) rows.old.items }
    ensures wide { length rows.new.items ≡ 256 }
    ensures shows { Shows subscription.now (txns_upto high commits.now.commits) rows.new.items }
{
    mk_copy_laws::latest_commits_stand();
    let mut shown = low;
    while let Some(next) = commits.next_above(shown) {
        if precedes(high, next.txn.stamp()) {
            return;
        }
        write_txn(rows, subscription, &next.txn);
        shown = next.txn.stamp();
    }
}
