//! What the columns leave of a round.
ghost use Rattle.std.specs.Prelude.{◌≡◌, map, IfOk, OnOk};
ghost use Rattle.mk_workers.specs.Worked.{logs_of};
ghost use Rattle.mk_round.specs.Begun.{without_log};

use mk_column::Column;
use mk_txn::NoMemory;
use mk_words::Step;
use std::alloc::Global;

/// The logs of the columns, which have none then.
pub(crate) fn take_logs(
    alloc: Global,
    columns: &mut Vec<Column>,
) -> Result<Vec<Vec<Step>>, NoMemory>
    ensures logs { IfOk result (λ logs. map (λ log. log.items) logs.items ≡ logs_of columns.old.items) }
    ensures columns { OnOk result (columns.new.items ≡ map without_log columns.old.items) }
{
    let mut logs = Vec::new(alloc);
    for column in columns.iter_mut() {
        logs.push(column.take_log())?;
    }
    Ok(logs)
}
