//! The items of an attempt, and what it fetched so far.
ghost use Rattle.std.specs.Prelude.{◌≡◌, ◌≤◌, true, [], length, take, slice_get, vec_len, IsSome, IsNone, IfSome, IfOk, OnOk, OnErr};
ghost use Rattle.mk_txn.specs.Transactions.{read_keys, write_keys, are_distinct};
ghost use Rattle.mk_client.specs.Wanted.{wanted_keys, next_wanted as next_of, with_read};
ghost use Rattle.mk_client.specs.Wanted as spec;
ghost use Rattle.mk_client.specs.Computed.{writes_of};

use crate::buffer::Buffer;
use mk_proc::{Item, Procs};
use mk_txn::{NoMemory, ReadItem, Stamp, Value, WriteItem};
use std::alloc::Global;
use std::marker::Model;

/// One attempt of a transaction, while its keys are fetched.
#[derive(Drop)]
pub struct ClientTxn {
    items: Vec<Item>,
    wanted: Vec<u32>,
    reads: Vec<ReadItem>,
}

impl Model for ClientTxn {
    ghost use Rattle.std.specs.Prelude.{◌≡◌, ◌≤◌, take, vec_len};
    ghost use Rattle.mk_txn.specs.Transactions.{read_keys};
    ghost use Rattle.mk_client.specs.Wanted.{Attempt, wanted_keys};

    ghost Value = { Attempt };

    ghost view = { λ t. record { items = t.items.items; reads = t.reads.items } };

    ghost invariant = { λ t. (t.wanted.items ≡ wanted_keys t.items.items) × (vec_len t.items ≤ 16) × (read_keys t.reads.items ≡ take (vec_len t.reads) t.wanted.items) };
}

impl ClientTxn {
    /// Begins an attempt of these items, 1 to 16, with nothing fetched.
    pub fn start(alloc: Global, items: &[Item]) -> Result<ClientTxn, NoMemory>
        requires some { 1 ≤ length items.now }
        requires few { length items.now ≤ 16 }
        ensures { IfOk result (λ t. t ≡ record { items = items.now; reads = [] }) }
    {
        Ok(ClientTxn {
            items: Vec::from_slice(alloc, items)?,
            wanted: wanted_by(alloc, items)?,
            reads: Vec::new(alloc),
        })
    }

    /// The next key to fetch, and `None` where none is left.
    pub fn wanted(&self) -> Option<u32>
        ensures { result ≡ next_of self.now.items self.now.reads }
    {
        self.wanted.get(self.reads.len()).copied()
    }

    /// Takes the version and the value of the key that is wanted.
    pub fn take(&mut self, version: Stamp, value: Value) -> Result<(), NoMemory>
        requires { IsSome (next_of self.old.items self.old.reads) }
        ensures ok { OnOk result (IfSome (next_of self.old.items self.old.reads) (λ key. self.new ≡ with_read self.old key version value)) }
        ensures err { OnErr result (self.new ≡ self.old) }
    {
        let key = self.wanted().unwrap();
        self.reads.push(ReadItem {
            key,
            version,
            value,
        })?;
        Ok(())
    }

    /// What was fetched so far: at most 16 keys, each once.
    pub fn reads(&self) -> &[ReadItem]
        ensures reads { result.now ≡ self.now.reads }
        ensures in_order { read_keys result.now ≡ take (length result.now) (wanted_keys self.now.items) }
        ensures distinct { are_distinct (read_keys result.now) ≡ true }
        ensures few { length result.now ≤ 16 }
    {
        &self.reads
    }

    /// What the attempt writes, computed from what it fetched: at most 16 keys, each once.
    pub fn writes(&self, procs: &Procs) -> Result<Vec<WriteItem>, NoMemory>
        requires { IsNone (next_of self.now.items self.now.reads) }
        ensures writes { IfOk result (λ writes. writes.items ≡ writes_of self.now.items self.now.reads) }
        ensures distinct { IfOk result (λ writes. are_distinct (write_keys writes.items) ≡ true) }
        ensures few { IfOk result (λ writes. vec_len writes ≤ 16) }
    {
        computed_writes(*self.items.allocator(), &self.items, &self.reads, procs)
    }
}

/// What these items, at most 16, write once these keys were fetched: at most 16 keys, each once.
pub fn computed_writes(
    alloc: Global,
    items: &[Item],
    reads: &[ReadItem],
    procs: &Procs,
) -> Result<Vec<WriteItem>, NoMemory>
    requires { length items.now ≤ 16 }
    ensures writes { IfOk result (λ writes. writes.items ≡ writes_of items.now reads.now) }
    ensures distinct { IfOk result (λ writes. are_distinct (write_keys writes.items) ≡ true) }
    ensures few { IfOk result (λ writes. vec_len writes ≤ 16) }
{
    let mut buffer = Buffer::new(alloc);
    for item in items {
        buffer.take_item(item, reads, procs)?;
    }
    Ok(buffer.into_writes())
}

/// The key that these items fetch once so many keys were fetched, and `None` where none is left.
pub fn next_wanted(items: &[Item], fetched: usize) -> Option<u32>
    ensures { result ≡ slice_get (wanted_keys items.now) fetched }
{
    let mut left = fetched;
    for (place, item) in items.iter().enumerate() {
        if is_fetched(&items[..place], item) {
            if left == 0 {
                return Some(item.key());
            }
            left -= 1;
        }
    }
    None
}

// The keys that these items fetch, in order.
fn wanted_by(alloc: Global, items: &[Item]) -> Result<Vec<u32>, NoMemory>
    ensures { IfOk result (λ keys. keys.items ≡ wanted_keys items.now) }
{
    let mut keys = Vec::new(alloc);
    for (place, item) in items.iter().enumerate() {
        if is_fetched(&items[..place], item) {
            keys.push(item.key())?;
        }
    }
    Ok(keys)
}

// Whether this item fetches its key, behind the earlier ones.
fn is_fetched(earlier: &[Item], item: &Item) -> bool
    ensures { result ≡ spec.is_fetched earlier.now item.now }
{
    item.is_read() && !has_key(item.key(), earlier)
}

// Whether one of the items reads or writes the key.
fn has_key(key: u32, items: &[Item]) -> bool
    ensures { result ≡ spec.has_key key items.now }
{
    items.iter().any(|item| item.key() == key)
}
