//! What there is before the first round.
ghost use Rattle.std.specs.Prelude.{◌≡◌, ◌≤◌, length, map, replicate, IfOk};
ghost use Rattle.mk_words.specs.Cells.{first_cell};
ghost use Rattle.mk_model.specs.ColumnState.{numbers_from};
ghost use Rattle.mk_history.specs.Histories.{clients_of as clients_in};
ghost use Rattle.mk_state.specs.Cells.{states_of};
ghost use Rattle.mk_state.specs.Starting.{first_column};

use mk_cell::Cell;
use mk_column::Column;
use mk_quorum::Size;
use mk_txn::NoMemory;
use std::alloc::Global;

// The numbers of the column's clients.
fn clients_of(alloc: Global, client_columns: &[u32], column: u32) -> Result<Vec<u32>, NoMemory>
    requires { length client_columns.now ≤ 64 }
    ensures { IfOk result (λ clients. clients.items ≡ clients_in column 1 client_columns.now) }
{
    let mut clients = Vec::new(alloc);
    for (place, number) in client_columns.iter().enumerate() {
        if *number == column {
            clients.push(place as u32 + 1)?;
        }
    }
    Ok(clients)
}

/// The columns.
pub(crate) fn first_columns(
    alloc: Global,
    size: Size,
    columns: u32,
    client_columns: &[u32],
    keys: u32,
    version: u32,
) -> Result<Vec<Column>, NoMemory>
    requires { length client_columns.now ≤ 64 }
    ensures { IfOk result (λ made. made.items ≡ map (first_column size client_columns.now keys version) (numbers_from 0 columns)) }
{
    let mut made = Vec::new(alloc);
    for number in 0..columns {
        let clients = clients_of(alloc, client_columns, number)?;
        let column = Column::new(alloc, size, number, clients.as_slice(), keys, version)?;
        made.push(column)?;
    }
    Ok(made)
}

/// The cells of one replica.
pub(crate) fn first_cells(alloc: Global, keys: u32) -> Result<Vec<Cell>, NoMemory>
    ensures { IfOk result (λ cells. states_of cells.items ≡ replicate keys first_cell) }
{
    let mut cells = Vec::new(alloc);
    for _key in 0..keys {
        cells.push(Cell::new(alloc))?;
    }
    Ok(cells)
}

/// The cells of so many replicas.
pub(crate) fn all_cells(alloc: Global, replicas: u32, keys: u32) -> Result<Vec<Vec<Cell>>, NoMemory>
    ensures { IfOk result (λ rows. map (λ row. states_of row.items) rows.items ≡ replicate replicas (replicate keys first_cell)) }
{
    let mut cells = Vec::new(alloc);
    for _replica in 0..replicas {
        cells.push(first_cells(alloc, keys)?)?;
    }
    Ok(cells)
}
