//! Commits by the keys that they read and write, and by their numbers.
ghost use Rattle.std.specs.Prelude.{◌≡◌, ℕ, Bool, ◌||◌, ◌&&◌, ◌==◌, [], ◌∷◌, ◌++◌, IfOk, OnOk};
ghost use Rattle.std.specs.List.{list_any};
ghost use Rattle.mk_txn.specs.declared.Stamp.{Stamp as StampValue};
ghost use Rattle.mk_txn.specs.Clashes.{conflict, is_between, writes_key};
ghost use Rattle.mk_txn.specs.Transactions.{same_id};
ghost use Rattle.mk_merge.specs.Ascending.{has_between};
ghost use Rattle.mk_merge.specs.Spanning.{is_spanned, spans_over};
ghost use Rattle.mk_merge.specs.Clashing.{reads_over, spans_at, stamps_at};

use crate::ascending::Stamps;
use crate::spanning::{Span, Spans};
use mk_txn::{NoMemory, Stamp, Txn, TxnId};
use std::alloc::Global;
use std::collections::{BTreeMap, BTreeSet};
use std::marker::Model;

// One more span of the key.
fn add_span(
    alloc: Global,
    readers: &mut BTreeMap<u32, Spans>,
    key: u32,
    span: Span,
) -> Result<(), NoMemory>
    ensures { OnOk result ((other : ℕ) (stamp : StampValue) → is_spanned stamp (spans_at other readers.new.entries) ≡ (is_spanned stamp (spans_at other readers.old.entries) || (other == key && spans_over stamp span))) }
{
    let spans = match readers.remove(&key) {
        Some(spans) => spans,
        None => Spans::new(alloc),
    };
    readers.insert(key, spans.with(span)?)?;
    Ok(())
}

// One more stamp of the key.
fn add_stamp(
    alloc: Global,
    writers: &mut BTreeMap<u32, Stamps>,
    key: u32,
    stamp: Stamp,
) -> Result<(), NoMemory>
    ensures { OnOk result ((other : ℕ) (test : StampValue → Bool) → list_any test (stamps_at other writers.new.entries) ≡ (list_any test (stamps_at other writers.old.entries) || (other == key && test stamp))) }
{
    let stamps = match writers.remove(&key) {
        Some(stamps) => stamps,
        None => Stamps::new(alloc),
    };
    writers.insert(key, stamps.with(stamp)?)?;
    Ok(())
}

// Whether one of the key's stamps lies between the two.
fn has_stamp_between(writers: &BTreeMap<u32, Stamps>, key: u32, low: Stamp, high: Stamp) -> bool
    ensures { result ≡ has_between low high (stamps_at key writers.now.entries) }
{
    match writers.get(&key) {
        Some(stamps) => stamps.has_between(low, high),
        None => false,
    }
}

// The spans of its reads, at the keys that it reads.
fn add_reads(alloc: Global, readers: &mut BTreeMap<u32, Spans>, txn: &Txn) -> Result<(), NoMemory>
    ensures { OnOk result ((key : ℕ) (stamp : StampValue) → is_spanned stamp (spans_at key readers.new.entries) ≡ (is_spanned stamp (spans_at key readers.old.entries) || reads_over key stamp txn.now)) }
{
    for item in txn.reads() {
        let span = Span {
            version: item.version,
            reader: txn.stamp(),
        };
        add_span(alloc, readers, item.key, span)?;
    }
    Ok(())
}

// Its stamp, at the keys that it writes.
fn add_writes(alloc: Global, writers: &mut BTreeMap<u32, Stamps>, txn: &Txn) -> Result<(), NoMemory>
    ensures { OnOk result ((key : ℕ) (test : StampValue → Bool) → list_any test (stamps_at key writers.new.entries) ≡ (list_any test (stamps_at key writers.old.entries) || (writes_key key txn.now && test txn.now.stamp))) }
{
    for item in txn.writes() {
        add_stamp(alloc, writers, item.key, txn.stamp())?;
    }
    Ok(())
}

// Commits in the order in which they were added.
#[derive(Drop)]
pub(crate) struct Commits<'a> {
    list: Vec<&'a Txn>,
    // the spans of the reads of each key, and the stamps of those that write it
    readers: BTreeMap<u32, Spans>,
    writers: BTreeMap<u32, Stamps>,
    ids: BTreeSet<TxnId>,
}

impl<'a> Model for Commits<'a> {
    ghost use Rattle.std.specs.Prelude.{List, map};
    ghost use Rattle.mk_txn.specs.Transactions.{Transaction};
    ghost use Rattle.mk_merge.specs.Clashing.{AreFiled};

    ghost Value = { List Transaction };

    ghost view = { λ commits. map (λ t. t.now) commits.list.items };

    ghost invariant = { λ commits. AreFiled (map (λ t. t.now) commits.list.items) commits.readers.entries commits.writers.entries commits.ids.keys };
}

impl<'a> Commits<'a> {
    pub(crate) fn new(alloc: Global) -> Commits<'a>
        ensures { result ≡ [] }
    {
        Commits {
            list: Vec::new(alloc),
            readers: BTreeMap::new(alloc),
            writers: BTreeMap::new(alloc),
            ids: BTreeSet::new(alloc),
        }
    }

    // The commits and one more.
    pub(crate) fn with(self, alloc: Global, txn: &'a Txn) -> Result<Commits<'a>, NoMemory>
        ensures { IfOk result (λ commits. commits ≡ self.entry ++ txn.now ∷ []) }
    {
        let Commits {
            mut list,
            mut readers,
            mut writers,
            mut ids,
        } = self;
        list.push(txn)?;
        add_reads(alloc, &mut readers, txn)?;
        add_writes(alloc, &mut writers, txn)?;
        ids.insert(txn.id())?;
        Ok(Commits {
            list,
            readers,
            writers,
            ids,
        })
    }

    // Whether the attempt is among them.
    pub(crate) fn has(&self, id: TxnId) -> bool
        ensures { result ≡ list_any (λ c. same_id c.id id) self.now }
    {
        self.ids.contains(&id)
    }

    // Whether one that writes this key lies between the two stamps.
    fn has_writer_between(&self, key: u32, low: Stamp, high: Stamp) -> bool
        ensures { result ≡ list_any (λ c. writes_key key c && is_between low c.stamp high) self.now }
    {
        has_stamp_between(&self.writers, key, low, high)
    }

    // Whether the stamp lies between one of them and a version of this key that it read.
    fn has_reader_over(&self, key: u32, stamp: Stamp) -> bool
        ensures { result ≡ list_any (reads_over key stamp) self.now }
    {
        match self.readers.get(&key) {
            Some(spans) => spans.reaches(stamp),
            None => false,
        }
    }

    // Whether one that writes a key which the transaction reads lies between the version read and its stamp.
    fn reads_clash(&self, txn: &Txn) -> bool
        ensures { result ≡ list_any (λ item. list_any (λ c. writes_key item.key c && is_between item.version c.stamp txn.now.stamp) self.now) txn.now.reads }
    {
        txn.reads().iter().any(|item| self.has_writer_between(item.key, item.version, txn.stamp()))
    }

    // Whether its stamp lies between one of them and the version that this read of a key which the transaction writes.
    fn writes_clash(&self, txn: &Txn) -> bool
        ensures { result ≡ list_any (λ item. list_any (reads_over item.key txn.now.stamp) self.now) txn.now.writes }
    {
        txn.writes()
            .iter()
            .any(|item| self.has_reader_over(item.key, txn.stamp()))
    }

    // Whether the transaction conflicts with one of them.
    pub(crate) fn conflicts(&self, txn: &Txn) -> bool
        ensures { result ≡ list_any (conflict txn.now) self.now }
    {
        self.reads_clash(txn) || self.writes_clash(txn)
    }
}
