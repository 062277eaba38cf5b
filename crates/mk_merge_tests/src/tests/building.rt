//! Parts of worked rows.
ghost use Rattle.std.specs.Prelude.{◌≡◌, [], ◌∷◌, List, Option, Some, IfOk};
ghost use Rattle.mk_words.specs.Merging.{merged};
ghost use Rattle.mk_words.specs.Promises.{PromiseState, ArePromises};
ghost use Rattle.mk_merge.specs.Keepings.{PromiseStands, Stand};
ghost use Rattle.mk_merge_tests.specs.Rows.{reader as is_reader, writer as is_writer, early as is_early, late as is_late, reported, promised};

use mk_merge::{Entries, Keeping, Promise};
use mk_quorum::Size;
use mk_txn::{
    Accepted, Marks, NoMemory, Outcome, ReadItem, Stamp, Txn, TxnError, TxnId, Value, Vote,
    WriteItem,
};
use mk_words::Entry;
use std::alloc::Global;
use std::test::Fail;

pub(crate) const READER: TxnId = TxnId { client: 1, seq: 1 };

pub(crate) const WRITER: TxnId = TxnId { client: 2, seq: 1 };

pub(crate) const EARLY: TxnId = TxnId { client: 1, seq: 1 };

pub(crate) const SECOND: TxnId = TxnId { client: 1, seq: 2 };

pub(crate) const LATE: TxnId = TxnId { client: 2, seq: 1 };

pub(crate) const OTHER: TxnId = TxnId { client: 3, seq: 1 };

pub(crate) const FIRST: Stamp = Stamp { time: 0, client: 0 };

pub(crate) fn reader(alloc: Global) -> Result<Txn, TxnError>
    ensures { IfOk result (λ txn. txn ≡ is_reader) }
{
    let reads = [ReadItem {
        key: 0,
        version: FIRST,
        value: Value::Number(0),
    }];
    let writes = [WriteItem {
        key: 1,
        value: Value::Number(1),
    }];
    Txn::new(
        alloc,
        READER,
        Stamp {
            time: 20,
            client: 1,
        },
        &reads,
        &writes,
    )
}

pub(crate) fn writer(alloc: Global) -> Result<Txn, TxnError>
    ensures { IfOk result (λ txn. txn ≡ is_writer) }
{
    let writes = [WriteItem {
        key: 0,
        value: Value::Number(2),
    }];
    Txn::new(
        alloc,
        WRITER,
        Stamp {
            time: 10,
            client: 2,
        },
        &[],
        &writes,
    )
}

// Writes key 0 at 10.1.
pub(crate) fn early(alloc: Global) -> Result<Txn, TxnError>
    ensures { IfOk result (λ txn. txn ≡ is_early) }
{
    let writes = [WriteItem {
        key: 0,
        value: Value::Number(5),
    }];
    Txn::new(
        alloc,
        EARLY,
        Stamp {
            time: 10,
            client: 1,
        },
        &[],
        &writes,
    )
}

// Reads what that wrote, at 20.2.
pub(crate) fn late(alloc: Global) -> Result<Txn, TxnError>
    ensures { IfOk result (λ txn. txn ≡ is_late) }
{
    let reads = [ReadItem {
        key: 0,
        version: Stamp {
            time: 10,
            client: 1,
        },
        value: Value::Number(5),
    }];
    Txn::new(
        alloc,
        LATE,
        Stamp {
            time: 20,
            client: 2,
        },
        &reads,
        &[],
    )
}

pub(crate) fn size_of(f: u32) -> Result<Size, Fail>
    ensures { IfOk result (λ size. size ≡ f) }
{
    let size = Size::new(f).ok_or("a size")?;
    Ok(size)
}

// An entry of that view with that vote and those outcomes.
pub(crate) fn entry(
    txn: Txn,
    view: u32,
    vote: Option<Vote>,
    accepted: Option<Accepted>,
    last: Option<Outcome>,
) -> Entry
    ensures { result ≡ reported view txn vote accepted last }
{
    Entry {
        txn,
        view,
        vote,
        accepted,
        last,
    }
}

pub(crate) fn one(alloc: Global, entry: Entry) -> Result<Vec<Entry>, NoMemory>
    ensures { IfOk result (λ entries. entries.items ≡ entry ∷ []) }
{
    let mut entries = Vec::new(alloc);
    entries.push(entry)?;
    Ok(entries)
}

// A promise from epoch 0 with these entries.
pub(crate) fn promise<K: Keeping>(alloc: Global, replica: u32, entries: Vec<Entry>) -> Promise<K>
    ensures { PromiseStands K K.stands result (promised replica entries.items) }
{
    Promise {
        replica,
        adopted: 0,
        base: K::empty(alloc),
        entries: Entries::of(alloc, entries),
        marks: Marks::new(alloc),
    }
}

// What is merged from these promises.
pub(crate) fn made<K: Keeping>(
    alloc: Global,
    f: u32,
    epoch: u32,
    promises: Vec<Promise<K>>,
) -> Result<K, Fail>
    requires { (states : List PromiseState) × Stand K K.stands promises.items states × ArePromises states }
    ensures { IfOk result (λ base. (states : List PromiseState) → Stand K K.stands promises.items states → ArePromises states → K.stands base (merged f epoch states)) }
{
    let size = size_of(f)?;
    let base = K::merge(alloc, size, epoch, promises.as_slice())?;
    Ok(base)
}
