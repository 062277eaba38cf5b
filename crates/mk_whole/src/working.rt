//! The logs and the journals of a round replayed, and matched with one another.
ghost use Rattle.std.specs.Prelude.{◌≡◌, None, map, IfOk};
ghost use Rattle.mk_history.specs.Histories.{History};
ghost use Rattle.mk_history.specs.Wholes.{WholeState};
ghost use Rattle.mk_whole.specs.Pairs.{each_done};
ghost use Rattle.mk_whole.specs.Logs.{column_done};
ghost use Rattle.mk_state.specs.Cells.{states_of};
ghost use Rattle.mk_whole.specs.Journals.{keys_done};
ghost use Rattle.mk_whole.specs.Working.{MayWork, flaw_of_work};

use crate::PlacedFlaw;
use crate::journals::replay_journals;
use crate::logs::replay_logs;
use crate::matching::match_journals;
use crate::turns::KeyTurns;
use mk_cell::Cell;
use mk_column::Column;
use mk_history::RoundLog;
use mk_quorum::Size;
use mk_txn::NoMemory;
use std::alloc::Global;

/// The columns do their logs and the cells their journals, which are matched then. Answers the first flaw.
pub(crate) fn replay_work(
    alloc: Global,
    size: Size,
    keys: u32,
    columns: &mut Vec<Column>,
    cells: &mut Vec<Vec<Cell>>,
    round: &RoundLog,
) -> Result<Option<PlacedFlaw>, NoMemory>
    requires { (run : History) × (state : WholeState) × MayWork run state size keys columns.old.items (map (λ row. states_of row.items) cells.old.items) round.now }
    ensures flaw { IfOk result (λ flaw. (run : History) (state : WholeState) → MayWork run state size keys columns.old.items (map (λ row. states_of row.items) cells.old.items) round.now → flaw ≡ flaw_of_work run state round.now) }
    ensures columns { IfOk result (λ flaw. flaw ≡ None → columns.new.items ≡ each_done column_done columns.old.items round.now.logs) }
    ensures cells { IfOk result (λ flaw. flaw ≡ None → map (λ row. states_of row.items) cells.new.items ≡ each_done keys_done (map (λ row. states_of row.items) cells.old.items) round.now.journals) }
{
    let count = columns.len() as u32;
    let journals = round.journals.as_slice();
    let mut turns = KeyTurns::new(alloc, size.n(), keys, journals)?;
    let of_logs = replay_logs(columns, round.logs.as_slice(), &mut turns)?;
    if of_logs.is_some() {
        return Ok(of_logs);
    }
    let of_journals = replay_journals(cells, journals)?;
    if of_journals.is_some() {
        return Ok(of_journals);
    }
    match_journals(count, journals, &turns, alloc)
}
