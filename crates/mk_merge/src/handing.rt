//! What replicas hand in.
ghost use Rattle.std.specs.Prelude.{◌≡◌, [], map, option_copied, IfOk};
ghost use Rattle.mk_words.specs.Entries.{entry_of};
ghost use Rattle.mk_merge.specs.Handing.{IsIndexed};
ghost use Rattle.mk_merge.specs.Keepings.{handed_in};

use crate::{Entries, Promise};
use mk_txn::{Marks, NoMemory, TxnId};
use mk_words::Entry;
use std::alloc::Global;
use std::collections::BTreeMap;
use std::marker::Model;

impl Entries {
    /// These entries, as they stand.
    pub fn of(_alloc: Global, entries: Vec<Entry>) -> Entries
        ensures { result ≡ entries.items }
    {
        Entries { entries }
    }

    /// The entries, as they stand.
    pub fn list(&self) -> &[Entry]
        ensures { result.now ≡ self.now }
    {
        self.entries.as_slice()
    }
}

// What a promise hands in beside its base, with the entry of each attempt by its number.
#[derive(Drop)]
pub(crate) struct Handed<'a> {
    replica: u32,
    entries: &'a [Entry],
    marks: &'a Marks,
    index: BTreeMap<TxnId, &'a Entry>,
}

impl<'a> Model for Handed<'a> {
    ghost use Rattle.std.specs.Prelude.{[]};
    ghost use Rattle.mk_words.specs.Bases.{empty_base};
    ghost use Rattle.mk_words.specs.Promises.{PromiseState};
    ghost use Rattle.mk_merge.specs.Handing.{IsIndexed};

    ghost Value = { PromiseState };

    ghost view = { λ handed. record { replica = handed.replica; adopted = 0; base = empty_base; entries = handed.entries.now; marks = handed.marks.now } };

    ghost invariant = { λ handed. IsIndexed handed.entries.now handed.index.entries };
}

// The entry of each attempt, by its number: of several the first.
fn indexed<'a>(alloc: Global, entries: &'a [Entry]) -> Result<BTreeMap<TxnId, &'a Entry>, NoMemory>
    ensures { IfOk result (λ index. IsIndexed entries.now index.entries) }
{
    let mut index = BTreeMap::new(alloc);
    let mut left = entries.len();
    while left > 0 {
        left -= 1;
        let entry = &entries[left];
        index.insert(entry.txn.id(), entry)?;
    }
    Ok(index)
}

impl<'a> Handed<'a> {
    ghost use Rattle.mk_words.specs.Entries.{entry_of};

    fn of<B>(alloc: Global, promise: &'a Promise<B>) -> Result<Handed<'a>, NoMemory>
        ensures { IfOk result (λ handed. handed ≡ handed_in promise.now) }
    {
        let entries = promise.entries.list();
        Ok(Handed {
            replica: promise.replica,
            entries,
            marks: &promise.marks,
            index: indexed(alloc, entries)?,
        })
    }

    pub(crate) fn replica(&self) -> u32
        ensures { result ≡ self.now.replica }
    {
        self.replica
    }

    pub(crate) fn entries(&self) -> &'a [Entry]
        ensures { result.now ≡ self.now.entries }
    {
        self.entries
    }

    pub(crate) fn marks(&self) -> &'a Marks
        ensures { result.now ≡ self.now.marks }
    {
        self.marks
    }

    // The entry of the attempt.
    pub(crate) fn entry(&self, id: TxnId) -> Option<&'a Entry>
        ensures { option_copied result ≡ entry_of id self.now.entries }
    {
        match self.index.get(&id) {
            Some(entry) => Some(*entry),
            None => None,
        }
    }
}

// What these promises hand in.
pub(crate) fn hand_in<'a, B>(
    alloc: Global,
    promises: &[&'a Promise<B>],
) -> Result<Vec<Handed<'a>>, NoMemory>
    ensures { IfOk result (λ all. all.items ≡ map (λ p. handed_in p.now) promises.now) }
{
    let mut all = Vec::new(alloc);
    for promise in promises {
        all.push(Handed::of(alloc, *promise)?)?;
    }
    Ok(all)
}
