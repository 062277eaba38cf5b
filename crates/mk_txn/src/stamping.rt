//! The order of stamps and of attempts, and the stamp of a new attempt.
ghost use Rattle.std.specs.Prelude.{◌≡◌, ◌≤◌, ◌^◌, All};
ghost use Rattle.mk_txn.specs.Stamps.{is_before, later_stamp, same_stamp as is_same_stamp, next_stamp_of};
ghost use Rattle.mk_txn.specs.Transactions.{same_id as is_same_id, id_before};

use crate::{LAST_TIME, ReadItem, Stamp, TxnId};

/// Whether `a` comes before `b`.
pub fn precedes(a: Stamp, b: Stamp) -> bool
    ensures { result ≡ is_before a b }
{
    a.time < b.time || (a.time == b.time && a.client < b.client)
}

/// The later of the two stamps.
pub fn later(a: Stamp, b: Stamp) -> Stamp
    ensures { result ≡ later_stamp a b }
{
    if precedes(a, b) { b } else { a }
}

/// Whether the two stamps are one.
pub fn same_stamp(a: Stamp, b: Stamp) -> bool
    ensures { result ≡ is_same_stamp a b }
{
    a.time == b.time && a.client == b.client
}

/// Whether the two numbers name one attempt.
pub fn same_id(a: TxnId, b: TxnId) -> bool
    ensures { result ≡ is_same_id a b }
{
    a.client == b.client && a.seq == b.seq
}

/// Whether attempt `a` stands before `b`: by client, and then by place among the client's attempts.
pub fn id_precedes(a: TxnId, b: TxnId) -> bool
    ensures { result ≡ id_before a b }
{
    a.client < b.client || (a.client == b.client && a.seq < b.seq)
}

/// The stamp of a new attempt of `client`, whose last stamp has the time `last`, or 0 where it has none.
/// It is not below the clock, and above the last stamp and every version read; none where that is past `LAST_TIME`.
pub fn next_stamp(client: u32, last: u64, clock: u64, reads: &[ReadItem]) -> Option<Stamp>
    requires last_in_range { last ≤ 2 ^ 62 }
    requires versions_in_range { All (λ item. item.version.time ≤ 2 ^ 62) reads.now }
    ensures { result ≡ next_stamp_of client last clock reads.now }
{
    let mut time = clock.max(last + 1);
    for item in reads {
        time = time.max(item.version.time + 1);
    }
    if time > LAST_TIME {
        None
    } else {
        Some(Stamp { time, client })
    }
}
