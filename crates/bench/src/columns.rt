//! The columns of a run as its first round begins.
use mk_column::Column;
use mk_kept::Head;
use mk_merge::Base;
use mk_state::Whole;
use mk_txn::NoMemory;
use std::alloc::Global;

/// The columns of runs with this head, by number. A head of more than 64 clients has none.
pub fn columns_of(alloc: Global, head: &Head) -> Result<Vec<Column>, NoMemory> {
    if head.client_columns.as_slice().len() > 64 {
        return Ok(Vec::new(alloc));
    }
    let mut whole: Whole<Base> = Whole::new(alloc, head)?;
    whole.begin_round()?;
    let (columns, _cells) = whole.take_work();
    Ok(columns)
}
