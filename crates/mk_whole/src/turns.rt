//! The key steps of the columns' logs, by replica and key.
ghost use Rattle.std.specs.Prelude.{◌≡◌, ◌++◌, ◌∷◌, [], length, map, replicate, slice_index_or, OnOk, IfOk};
ghost use Rattle.mk_whole.specs.Turns.{with_turn, with_turn_at, turns_at};

use mk_txn::NoMemory;
use mk_words::{JournalEntry, KeyCall};
use std::alloc::Global;
use std::marker::Model;

/// The key steps of a round's logs, by replica and key, as a journal would have them whose columns came one after another.
#[derive(Drop)]
pub(crate) struct KeyTurns {
    replicas: Vec<Vec<Vec<JournalEntry>>>,
}

impl Model for KeyTurns {
    ghost use Rattle.std.specs.Prelude.{List, map};
    ghost use Rattle.mk_words.specs.declared.JournalEntry.{JournalEntry};

    ghost Value = { List (List (List JournalEntry)) };

    ghost view = { λ turns. map (λ replica. map (λ key. key.items) replica.items) turns.replicas.items };
}

impl KeyTurns {
    /// None at so many keys of so many replicas. There is room at each key for as many as its journal has entries.
    pub(crate) fn new(
        alloc: Global,
        replicas: u32,
        keys: u32,
        journals: &[Vec<Vec<JournalEntry>>],
    ) -> Result<KeyTurns, NoMemory>
        ensures { IfOk result (λ turns. turns ≡ replicate replicas (replicate keys [])) }
    {
        let mut table = Vec::with_capacity(alloc, replicas as usize)?;
        for replica in 0..replicas {
            table.push(no_turns(alloc, keys, journals_at(journals, replica))?)?;
        }
        Ok(KeyTurns { replicas: table })
    }

    /// One more at the call's key.
    pub(crate) fn push(&mut self, call: &KeyCall, turn: JournalEntry) -> Result<(), NoMemory>
        ensures { OnOk result (self.new ≡ with_turn_at call.now.replica call.now.key turn self.old) }
    {
        let replica = call.replica as usize;
        if replica < self.replicas.len() {
            push_turn(&mut self.replicas[replica], call.key, turn)?;
        }
        Ok(())
    }

    /// Those at this key of this replica.
    pub(crate) fn at(&self, replica: u32, key: u32) -> &[JournalEntry]
        ensures { result.now ≡ turns_at self.now replica key }
    {
        match self.replicas.get(replica as usize) {
            Some(keys) => match keys.get(key as usize) {
                Some(turns) => turns.as_slice(),
                None => &[],
            },
            None => &[],
        }
    }
}

// The journals of this replica.
fn journals_at(journals: &[Vec<Vec<JournalEntry>>], replica: u32) -> &[Vec<JournalEntry>]
    ensures { result.now ≡ slice_index_or (map (λ row. row.items) journals.now) replica [] }
{
    match journals.get(replica as usize) {
        Some(row) => row.as_slice(),
        None => &[],
    }
}

// How many entries the journal of this key has.
fn entries_at(journals: &[Vec<JournalEntry>], key: u32) -> usize
    ensures { result ≡ length (slice_index_or (map (λ journal. journal.items) journals.now) key []) }
{
    match journals.get(key as usize) {
        Some(journal) => journal.len(),
        None => 0,
    }
}

// No key steps at so many keys, with room for those of these journals.
fn no_turns(
    alloc: Global,
    keys: u32,
    journals: &[Vec<JournalEntry>],
) -> Result<Vec<Vec<JournalEntry>>, NoMemory>
    ensures { IfOk result (λ row. map (λ key. key.items) row.items ≡ replicate keys []) }
{
    let mut row = Vec::with_capacity(alloc, keys as usize)?;
    for key in 0..keys {
        row.push(Vec::with_capacity(alloc, entries_at(journals, key))?)?;
    }
    Ok(row)
}

// One more at this key.
fn push_turn(row: &mut Vec<Vec<JournalEntry>>, key: u32, turn: JournalEntry) -> Result<(), NoMemory>
    ensures { OnOk result (map (λ key. key.items) row.new.items ≡ with_turn key turn (map (λ key. key.items) row.old.items)) }
{
    let key = key as usize;
    if key < row.len() {
        row[key].push(turn)?;
    }
    Ok(())
}
