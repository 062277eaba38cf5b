//! The ranges of single numbers in a run of a head.
ghost use Rattle.std.specs.Prelude.{◌≡◌, []};
ghost use Rattle.std.specs.List.{list_all};
ghost use Rattle.mk_history.specs.Shape as spec;
ghost use Rattle.mk_kept.specs.Heads.{history};

use mk_kept::Head;
use mk_txn::{LAST_TIME, Stamp, TxnId, Value, WriteItem};

/// Whether the time is at most 2^62, and the client's number at most 64.
pub fn stamp_fits(stamp: Stamp) -> bool
    ensures { result ≡ spec.stamp_fits stamp }
{
    stamp.time <= LAST_TIME && stamp.client <= 64
}

/// Whether the value is a number, or the run is of version 2.
pub fn value_fits(head: &Head, value: Value) -> bool
    ensures { result ≡ spec.value_fits (history head.now []) value }
{
    match value {
        Value::Number(_) => true,
        Value::Absent => head.version == 2,
    }
}

/// Whether the client has a name.
pub fn client_fits(head: &Head, client: u32) -> bool
    ensures { result ≡ spec.client_fits (history head.now []) client }
{
    client >= 1 && client <= head.client_names.len()
}

/// Whether the attempt's client has a name, and its place is 1 to 16384.
pub fn id_fits(head: &Head, id: TxnId) -> bool
    ensures { result ≡ spec.id_fits (history head.now []) id }
{
    client_fits(head, id.client) && id.seq >= 1 && id.seq <= 16384
}

/// Whether the key has a name.
pub fn key_fits(head: &Head, key: u32) -> bool
    ensures { result ≡ spec.key_fits (history head.now []) key }
{
    key < head.key_names.len()
}

/// Whether there is such a replica.
pub fn replica_fits(head: &Head, replica: u32) -> bool
    ensures { result ≡ spec.replica_fits (history head.now []) replica }
{
    replica < head.size.n()
}

/// Whether a takeover can have this view, 1 to 15.
pub fn view_fits(view: u32) -> bool
    ensures { result ≡ spec.view_fits view }
{
    view >= 1 && view <= 15
}

fn write_fits(head: &Head, item: WriteItem) -> bool
    ensures { result ≡ spec.write_fits (history head.now []) item }
{
    key_fits(head, item.key) && value_fits(head, item.value)
}

/// Whether the keys of the writes have names, and their values are in range.
pub fn writes_fit(head: &Head, writes: &[WriteItem]) -> bool
    ensures { result ≡ list_all (spec.write_fits (history head.now [])) writes.now }
{
    writes.iter().all(|item| write_fits(head, *item))
}
