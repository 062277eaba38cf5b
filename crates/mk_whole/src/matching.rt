//! The journals of a round compared with the key steps of its logs.
ghost use Rattle.std.specs.Prelude.{◌≡◌, ◌≤◌, length, map, IfOk};
ghost use Rattle.mk_lists.specs.Among.{Each};
ghost use Rattle.mk_verdict.specs.Flaws.{first_from};
ghost use Rattle.mk_whole.specs.Matches.{flaw_between, unmatched_key, unmatched_replica};

use crate::matchers::{flaw_at_end, matchers_of, take_entries};
use crate::turns::KeyTurns;
use crate::{JournalEntry, PlacedFlaw};
use mk_txn::NoMemory;
use std::alloc::Global;

// The first place at this key, by column, at which the entries in the journal and the key steps differ.
fn match_key(
    replica: u32,
    key: u32,
    columns: u32,
    journal: &[JournalEntry],
    turns: &[JournalEntry],
    alloc: Global,
) -> Result<Option<PlacedFlaw>, NoMemory>
    ensures { IfOk result (λ flaw. flaw ≡ first_from (flaw_between replica key journal.now turns.now) 0 columns) }
{
    let mut matchers = matchers_of(alloc, columns, turns)?;
    take_entries(&mut matchers, journal);
    Ok(flaw_at_end(replica, key, matchers.as_slice()))
}

// The same of the first key at this replica.
fn match_replica(
    replica: u32,
    columns: u32,
    journals: &[Vec<JournalEntry>],
    turns: &KeyTurns,
    alloc: Global,
) -> Result<Option<PlacedFlaw>, NoMemory>
    requires { length journals.now ≤ 256 }
    ensures { IfOk result (λ flaw. flaw ≡ first_from (unmatched_key columns (map (λ journal. journal.items) journals.now) turns.now replica) 0 (length journals.now)) }
{
    for (key, journal) in journals.iter().enumerate() {
        let turns = turns.at(replica, key as u32);
        let flaw = match_key(
            replica,
            key as u32,
            columns,
            journal.as_slice(),
            turns,
            alloc,
        )?;
        if flaw.is_some() {
            return Ok(flaw);
        }
    }
    Ok(None)
}

/// The first place at which a column's entries in a journal and its key steps differ.
pub(crate) fn match_journals(
    columns: u32,
    journals: &[Vec<Vec<JournalEntry>>],
    turns: &KeyTurns,
    alloc: Global,
) -> Result<Option<PlacedFlaw>, NoMemory>
    requires few { length journals.now ≤ 7 }
    requires keys { Each (λ row. length row.items ≤ 256) journals.now }
    ensures { IfOk result (λ flaw. flaw ≡ first_from (unmatched_replica columns (map (λ row. map (λ journal. journal.items) row.items) journals.now) turns.now) 0 (length journals.now)) }
{
    for (replica, journals) in journals.iter().enumerate() {
        let flaw = match_replica(replica as u32, columns, journals.as_slice(), turns, alloc)?;
        if flaw.is_some() {
            return Ok(flaw);
        }
    }
    Ok(None)
}
