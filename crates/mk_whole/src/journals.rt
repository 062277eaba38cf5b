//! The journals of a round replayed on their cells.
ghost use Rattle.std.specs.Prelude.{◌≡◌, ◌≤◌, None, Some, length, map, IfOk};
ghost use Rattle.mk_words.specs.Cells.{cell_answer, cell_after};
ghost use Rattle.mk_words.specs.Journals.{cell_through};
ghost use Rattle.mk_verdict.specs.Flaws.{flaw_of_journal};
ghost use Rattle.mk_verdict.specs.Sameness.{same_answer};
ghost use Rattle.mk_whole.specs.Pairs.{each_done, first_in};
ghost use Rattle.mk_state.specs.Cells.{states_of};
ghost use Rattle.mk_whole.specs.Journals.{flaw_at_replica, keys_done, AreEven};

use crate::{Flaw, JournalEntry, Place, PlacedFlaw};
use mk_cell::Cell;
use mk_txn::NoMemory;

// That the cell gives another answer at this entry.
fn flaw_at(replica: u32, key: u32, entry: u64) -> Option<PlacedFlaw>
    ensures { result ≡ Some (record { place = Place.Cell replica key entry; why = Flaw.Answer }) }
{
    Some(PlacedFlaw {
        place: Place::Cell {
            replica,
            key,
            entry,
        },
        why: Flaw::Answer,
    })
}

// The cell does the entry's act, and this is whether it answers as the entry says.
fn do_entry(cell: &mut Cell, entry: &JournalEntry) -> Result<bool, NoMemory>
    ensures same { IfOk result (λ same. same ≡ same_answer (cell_answer cell.old.state entry.now.act) entry.now.answer) }
    ensures after { IfOk result (λ same. cell.new.state ≡ cell_after cell.old.state entry.now.act) }
{
    cell.reserve()?;
    Ok(cell.act(entry.act) == entry.answer)
}

// The cell does the acts of its journal. Answers the journal's first flaw.
fn replay_journal(
    replica: u32,
    key: u32,
    cell: &mut Cell,
    journal: &[JournalEntry],
) -> Result<Option<PlacedFlaw>, NoMemory>
    ensures flaw { IfOk result (λ flaw. flaw ≡ flaw_of_journal cell.old.state replica key 1 journal.now) }
    ensures cell { IfOk result (λ flaw. flaw ≡ None → cell.new.state ≡ cell_through cell.old.state journal.now) }
{
    for (place, entry) in journal.iter().enumerate() {
        if !do_entry(cell, entry)? {
            return Ok(flaw_at(replica, key, place as u64 + 1));
        }
    }
    Ok(None)
}

// The cells of a replica do the acts of their journals. Answers the first flaw.
fn replay_keys(
    replica: u32,
    cells: &mut Vec<Cell>,
    journals: &[Vec<JournalEntry>],
) -> Result<Option<PlacedFlaw>, NoMemory>
    requires few { length cells.old.items ≤ 256 }
    requires each { length journals.now ≡ length cells.old.items }
    ensures flaw { IfOk result (λ flaw. flaw ≡ flaw_at_replica replica (states_of cells.old.items) (map (λ journal. journal.items) journals.now)) }
    ensures cells { IfOk result (λ flaw. flaw ≡ None → states_of cells.new.items ≡ keys_done (states_of cells.old.items) (map (λ journal. journal.items) journals.now)) }
{
    for (key, journal) in journals.iter().enumerate() {
        let flaw = replay_journal(replica, key as u32, &mut cells[key], journal.as_slice())?;
        if flaw.is_some() {
            return Ok(flaw);
        }
    }
    Ok(None)
}

/// The cells of all replicas do the acts of their journals. Answers the first flaw.
pub(crate) fn replay_journals(
    cells: &mut Vec<Vec<Cell>>,
    journals: &[Vec<Vec<JournalEntry>>],
) -> Result<Option<PlacedFlaw>, NoMemory>
    requires few { length cells.old.items ≤ 7 }
    requires each { length journals.now ≡ length cells.old.items }
    requires keys { AreEven (map (λ row. states_of row.items) cells.old.items) (map (λ row. map (λ journal. journal.items) row.items) journals.now) }
    ensures flaw { IfOk result (λ flaw. flaw ≡ first_in flaw_at_replica 0 (map (λ row. states_of row.items) cells.old.items) (map (λ row. map (λ journal. journal.items) row.items) journals.now)) }
    ensures cells { IfOk result (λ flaw. flaw ≡ None → map (λ row. states_of row.items) cells.new.items ≡ each_done keys_done (map (λ row. states_of row.items) cells.old.items) (map (λ row. map (λ journal. journal.items) row.items) journals.now)) }
{
    for (replica, journals) in journals.iter().enumerate() {
        let flaw = replay_keys(replica as u32, &mut cells[replica], journals.as_slice())?;
        if flaw.is_some() {
            return Ok(flaw);
        }
    }
    Ok(None)
}
