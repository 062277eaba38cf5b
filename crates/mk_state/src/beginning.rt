//! How a round begins in the columns.
ghost use Rattle.std.specs.Prelude.{◌≡◌, None, length, map, IfOk, OnOk};
ghost use Rattle.mk_lists.specs.Among.{Each};
ghost use Rattle.mk_quorum.specs.Sizes.{members};
ghost use Rattle.mk_model.specs.Conditions.{wanted};
ghost use Rattle.mk_state.specs.Beginning.{column_begun};

use mk_column::Column;
use mk_trim::ReplicaView;
use mk_txn::NoMemory;
use std::alloc::Global;

fn copy_views(alloc: Global, views: &[ReplicaView]) -> Result<Vec<ReplicaView>, NoMemory>
    ensures { IfOk result (λ copy. copy.items ≡ views.now) }
{
    let mut copy = Vec::new(alloc);
    for view in views {
        copy.push(ReplicaView {
            phase: view.phase,
            epoch: view.epoch,
            fates: view.fates.copy()?,
        })?;
    }
    Ok(copy)
}

fn begin_column(column: &mut Column, views: Vec<ReplicaView>)
    requires views { length views.items ≡ members column.old.setting.faults }
    requires idle { wanted column.old.state.work ≡ None }
    ensures { column.new ≡ column_begun views.items column.old }
{
    let _ = column.take_log();
    column.begin_round(views);
}

/// A round begins in each column, in which it sees the replicas so. Its log is empty then.
pub(crate) fn begin_columns(
    alloc: Global,
    columns: &mut Vec<Column>,
    views: &[ReplicaView],
) -> Result<(), NoMemory>
    requires views { Each (λ column. length views.now ≡ members column.setting.faults) columns.old.items }
    requires idle { Each (λ column. wanted column.state.work ≡ None) columns.old.items }
    ensures { OnOk result (columns.new.items ≡ map (column_begun views.now) columns.old.items) }
{
    for column in columns.iter_mut() {
        let copy = copy_views(alloc, views)?;
        begin_column(column, copy);
    }
    Ok(())
}
