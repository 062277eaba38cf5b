//! What the columns have at a replica.
ghost use Rattle.std.specs.Prelude.{◌≡◌, ◌<◌, None, map, IfOk};
ghost use Rattle.mk_lists.specs.Among.{Each};
ghost use Rattle.mk_quorum.specs.Sizes.{members};
ghost use Rattle.mk_model.specs.Conditions.{wanted};
ghost use Rattle.mk_history.specs.Wholes.{entries_of, marks_of};
ghost use Rattle.mk_state.specs.Handing.{states_in, column_reset};

use mk_column::Column;
use mk_txn::{Marks, NoMemory};
use mk_words::Entry;
use std::alloc::Global;

/// Copies of the entries of all columns at the replica.
pub(crate) fn entries_at(
    alloc: Global,
    columns: &[Column],
    replica: u32,
) -> Result<Vec<Entry>, NoMemory>
    requires { Each (λ column. replica < members column.setting.faults) columns.now }
    ensures { IfOk result (λ entries. entries.items ≡ entries_of (states_in columns.now) replica) }
{
    let mut all = Vec::new(alloc);
    for column in columns {
        let mut entries = column.entries(replica)?;
        all.append(&mut entries)?;
    }
    Ok(all)
}

/// Of each client the greatest mark that a column has at the replica.
pub(crate) fn marks_at(alloc: Global, columns: &[Column], replica: u32) -> Result<Marks, NoMemory>
    requires { Each (λ column. replica < members column.setting.faults) columns.now }
    ensures { IfOk result (λ marks. marks ≡ marks_of (states_in columns.now) replica) }
{
    let mut all = Marks::new(alloc);
    for column in columns {
        all.join(column.marks(replica))?;
    }
    Ok(all)
}

/// The replica has no entries and no marks in any column.
pub(crate) fn reset_columns(columns: &mut Vec<Column>, replica: u32)
    requires there { Each (λ column. replica < members column.setting.faults) columns.old.items }
    requires idle { Each (λ column. wanted column.state.work ≡ None) columns.old.items }
    ensures { columns.new.items ≡ map (column_reset replica) columns.old.items }
{
    for column in columns.iter_mut() {
        column.reset(replica);
    }
}
