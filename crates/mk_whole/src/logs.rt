//! The logs of a round replayed.
ghost use Rattle.std.specs.Prelude.{◌≡◌, ◌≤◌, ◌++◌, ◌∷◌, [], None, Some, length, map, is_none, IfOk, OnOk, IsTrue};
ghost use Rattle.mk_model.specs.Conditions.{blocked};
ghost use Rattle.mk_model.specs.Steps.{column_after};
ghost use Rattle.mk_whole.specs.Pairs.{each_done, first_in};
ghost use Rattle.mk_whole.specs.Turns.{after_step, after_steps, after_all_steps};
ghost use Rattle.mk_whole.specs.Logs.{flaw_in_column, column_done};

use crate::turns::KeyTurns;
use crate::{Flaw, JournalEntry, Place, PlacedFlaw, Step};
use mk_column::{Column, ColumnError};
use mk_txn::NoMemory;

// The column's flaw at this entry.
fn flaw_at(column: u32, entry: u64, why: Flaw) -> Option<PlacedFlaw>
    ensures { result ≡ Some (record { place = Place.Column column entry; why = why }) }
{
    Some(PlacedFlaw {
        place: Place::Column { column, entry },
        why,
    })
}

// A key step is kept in `turns`.
fn keep_turn(number: u32, step: &Step, turns: &mut KeyTurns) -> Result<(), NoMemory>
    ensures { OnOk result (turns.new ≡ after_step number turns.old step.now) }
{
    if let Step::Key { call, answer } = step {
        let turn = JournalEntry {
            seat: number,
            act: call.act,
            answer: *answer,
        };
        turns.push(call, turn)?;
    }
    Ok(())
}

// Does the step where it is enabled, and answers whether it is.
fn do_step(column: &mut Column, step: &Step) -> Result<bool, NoMemory>
    ensures enabled { IfOk result (λ done. done ≡ is_none (blocked column.old.setting column.old.state step.now)) }
    ensures after { IfOk result (λ done. IsTrue done → column.new ≡ record column.old { state = column_after column.old.setting column.old.state step.now; log = column.old.log ++ step.now ∷ [] }) }
{
    match column.step(step.copy()?) {
        Ok(()) => Ok(true),
        Err(ColumnError::NotEnabled(_)) => Ok(false),
        Err(ColumnError::NoMemory) => Err(NoMemory),
    }
}

/// The column does the steps of its log, whose key steps are kept in `turns`. Answers the log's first flaw.
fn replay_log(
    number: u32,
    column: &mut Column,
    log: &[Step],
    turns: &mut KeyTurns,
) -> Result<Option<PlacedFlaw>, NoMemory>
    ensures flaw { IfOk result (λ flaw. flaw ≡ flaw_in_column number column.old log.now) }
    ensures column { IfOk result (λ flaw. flaw ≡ None → column.new ≡ column_done column.old log.now) }
    ensures turns { IfOk result (λ flaw. flaw ≡ None → turns.new ≡ after_steps number turns.old log.now) }
{
    for (place, step) in log.iter().enumerate() {
        if !do_step(column, step)? {
            return Ok(flaw_at(number, place as u64 + 1, Flaw::Disabled));
        }
        keep_turn(number, step, turns)?;
    }
    if column.wants().is_some() {
        return Ok(flaw_at(number, log.len() as u64 + 1, Flaw::Unfinished));
    }
    Ok(None)
}

/// Each column does its log. Answers the first flaw.
pub(crate) fn replay_logs(
    columns: &mut Vec<Column>,
    logs: &[Vec<Step>],
    turns: &mut KeyTurns,
) -> Result<Option<PlacedFlaw>, NoMemory>
    requires few { length columns.old.items ≤ 8 }
    requires each { length logs.now ≡ length columns.old.items }
    ensures flaw { IfOk result (λ flaw. flaw ≡ first_in flaw_in_column 0 columns.old.items (map (λ log. log.items) logs.now)) }
    ensures columns { IfOk result (λ flaw. flaw ≡ None → columns.new.items ≡ each_done column_done columns.old.items (map (λ log. log.items) logs.now)) }
    ensures turns { IfOk result (λ flaw. flaw ≡ None → turns.new ≡ after_all_steps 0 turns.old (map (λ log. log.items) logs.now)) }
{
    for (place, log) in logs.iter().enumerate() {
        let flaw = replay_log(place as u32, &mut columns[place], log.as_slice(), turns)?;
        if flaw.is_some() {
            return Ok(flaw);
        }
    }
    Ok(None)
}
