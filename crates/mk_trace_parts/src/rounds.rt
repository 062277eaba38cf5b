//! The tables of a round that goes on, and the counts of attempts.
ghost use Rattle.std.specs.Prelude.{◌≡◌, ◌-◌, ◌∷◌, [], IfOk, OnOk, map, replicate};
ghost use Rattle.mk_trace_text.specs.Begun.{raised};
ghost use Rattle.mk_trace_text.specs.States.{extended, journaled};

use mk_txn::NoMemory;
use mk_words::{JournalEntry, Step};
use std::alloc::Global;

/// An empty log for each of so many columns.
pub fn empty_logs(alloc: Global, columns: u32) -> Result<Vec<Vec<Step>>, NoMemory>
    ensures { IfOk result (λ logs. map (λ log. log.items) logs.items ≡ replicate columns []) }
{
    let mut logs: Vec<Vec<Step>> = Vec::new(alloc);
    'each: for _ in 0..columns {
        logs.push(Vec::new(alloc))?;
    }
    Ok(logs)
}

fn empty_keys(alloc: Global, keys: u32) -> Result<Vec<Vec<JournalEntry>>, NoMemory>
    ensures { IfOk result (λ made. map (λ key. key.items) made.items ≡ replicate keys []) }
{
    let mut made: Vec<Vec<JournalEntry>> = Vec::new(alloc);
    'each: for _ in 0..keys {
        made.push(Vec::new(alloc))?;
    }
    Ok(made)
}

/// An empty journal for each of so many replicas and keys.
pub fn empty_journals(
    alloc: Global,
    replicas: u32,
    keys: u32,
) -> Result<Vec<Vec<Vec<JournalEntry>>>, NoMemory>
    ensures { IfOk result (λ made. map (λ replica. map (λ key. key.items) replica.items) made.items ≡ replicate replicas (replicate keys [])) }
{
    let mut made: Vec<Vec<Vec<JournalEntry>>> = Vec::new(alloc);
    'each: for _ in 0..replicas {
        made.push(empty_keys(alloc, keys)?)?;
    }
    Ok(made)
}

/// Puts a step last in the column's log.
pub fn push_step(logs: &mut Vec<Vec<Step>>, column: u32, step: Step) -> Result<(), NoMemory>
    ensures { OnOk result (map (λ log. log.items) logs.new.items ≡ extended (map (λ log. log.items) logs.old.items) column step) }
{
    if let Some(log) = logs.get_mut(column as usize) {
        log.push(step)?;
    }
    Ok(())
}

fn push_key_entry(
    keys: &mut Vec<Vec<JournalEntry>>,
    key: u32,
    entry: JournalEntry,
) -> Result<(), NoMemory>
    ensures { OnOk result (map (λ key. key.items) keys.new.items ≡ extended (map (λ key. key.items) keys.old.items) key entry) }
{
    if let Some(journal) = keys.get_mut(key as usize) {
        journal.push(entry)?;
    }
    Ok(())
}

/// Puts an entry last in the journal of the replica and key.
pub fn push_entry(
    journals: &mut Vec<Vec<Vec<JournalEntry>>>,
    replica: u32,
    key: u32,
    entry: JournalEntry,
) -> Result<(), NoMemory>
    ensures { OnOk result (map (λ replica. map (λ key. key.items) replica.items) journals.new.items ≡
        journaled (map (λ replica. map (λ key. key.items) replica.items) journals.old.items) replica key entry) }
{
    if let Some(keys) = journals.get_mut(replica as usize) {
        push_key_entry(keys, key, entry)?;
    }
    Ok(())
}

/// One more attempt of the client of this number, which counts from 1.
pub fn raise(begun: &mut Vec<u32>, client: u32)
    ensures { begun.new.items ≡ raised begun.old.items (client - 1) }
{
    if let Some(count) = begun.get_mut(client.saturating_sub(1) as usize) {
        *count = count.saturating_add(1);
    }
}
