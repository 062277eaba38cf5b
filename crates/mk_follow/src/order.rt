//! Places of commits, in order of their stamps.
ghost use Rattle.std.specs.Prelude.{◌≡◌, ◌<◌, ◌≤◌, length, vec_len, vec_capacity};
ghost use Rattle.mk_follow.specs.Orders.{placed, count_upto, IsAscending};

use mk_txn::{Stamp, precedes};

/// The stamp of a commit, and where the commit stands.
pub(crate) type Entry = (Stamp, usize);

/// How many of the entries have stamps at or below this one.
pub(crate) fn upto(order: &[Entry], stamp: Stamp) -> usize
    requires { IsAscending order.now }
    ensures value { result ≡ count_upto stamp order.now }
    ensures bound { result ≤ length order.now }
{
    order.partition_point(|entry| !precedes(stamp, entry.0))
}

/// Puts an entry at its place. There is room for it.
pub(crate) fn put(order: &mut Vec<Entry>, stamp: Stamp, place: usize)
    requires ascending { IsAscending order.old.items }
    requires room { vec_len order.old < vec_capacity order.old }
    ensures { order.new.items ≡ placed (stamp, place) order.old.items }
{
    let at = upto(order.as_slice(), stamp);
    order.insert(at, (stamp, place)).unwrap();
}
