//! The lines of the attempts of columns.
ghost use Rattle.std.specs.Prelude.{◌≡◌, ◌≤◌, ◌++◌, [], None, Some, length, IsSome, IfOk, OnOk, option_map, option_copied};
ghost use Rattle.mk_model.specs.ColumnState.{AttemptState, attempt_of, client_of};
ghost use Rattle.mk_run.specs.Attempts.{state_of as state_in, attempt_line, line_of, with_line};
ghost use Rattle.mk_run.specs.Lines.{told_by, first_told, lines_of_client, lines_of_views, view_at};

use crate::firsts::{FirstLearning, FirstLearnings};
use crate::{AttemptLine, Path, Reads, State, Writes};
use mk_column::{Attempt, Column};
use mk_txn::{NoMemory, Txn, TxnId};
use std::alloc::Global;

// How the attempt ended: as was learned first, and else as it stands.
fn state_of(column: &Column, id: TxnId, first: Option<&FirstLearning>) -> State
    requires { IsSome (attempt_of column.now.state id) }
    ensures { option_map (λ (a : AttemptState). state_in column.now.setting.faults column.now.state a (option_map told_by (option_copied first.entry))) (attempt_of column.now.state id) ≡ Some result }
{
    match first {
        Some(first) => State::Learned {
            outcome: first.outcome,
            path: first.path.unwrap_or(Path::Fast),
        },
        None => State::Left(column.left(id)),
    }
}

// The line of an attempt that was stamped.
fn stamped_line(alloc: Global, id: TxnId, txn: &Txn, state: State) -> Result<AttemptLine, NoMemory>
    ensures { IfOk result (λ line. line ≡ attempt_line id (Some txn.now) state) }
{
    Ok(AttemptLine {
        id,
        stamp: Some(txn.stamp()),
        reads: Reads::of(txn.reads().to_vec(alloc)?),
        writes: Writes::of(txn.writes().to_vec(alloc)?),
        state,
    })
}

// The line of an attempt that was never stamped.
fn unstamped_line(alloc: Global, id: TxnId, state: State) -> AttemptLine
    ensures { result ≡ attempt_line id None state }
{
    AttemptLine {
        id,
        stamp: None,
        reads: Reads::of(Vec::new(alloc)),
        writes: Writes::of(Vec::new(alloc)),
        state,
    }
}

// The line of an attempt in this state.
fn line_in(alloc: Global, attempt: &Attempt, state: State) -> Result<AttemptLine, NoMemory>
    ensures { IfOk result (λ line. line ≡ attempt_line attempt.now.id attempt.now.txn state) }
{
    match &attempt.txn {
        Some(txn) => stamped_line(alloc, attempt.id, txn, state),
        None => Ok(unstamped_line(alloc, attempt.id, state)),
    }
}

// Appends the line of this attempt, where there is one.
fn push_line(
    lines: &mut Vec<AttemptLine>,
    column: &Column,
    firsts: &FirstLearnings,
    id: TxnId,
) -> Result<(), NoMemory>
    ensures { OnOk result (lines.new.items ≡ lines.old.items ++ with_line (option_map (line_of column.now.setting.faults (first_told firsts.now) column.now.state) (attempt_of column.now.state id)) []) }
{
    let alloc = *lines.allocator();
    let Some(attempt) = column.attempt(id) else {
        return Ok(());
    };
    let state = state_of(column, id, firsts.find(id));
    lines.push(line_in(alloc, attempt, state)?)?;
    Ok(())
}

// Appends the lines of the client's attempts, in order.
fn push_client(
    lines: &mut Vec<AttemptLine>,
    column: &Column,
    firsts: &FirstLearnings,
    client: u32,
) -> Result<(), NoMemory>
    requires { IsSome (client_of column.now.state client) }
    ensures { OnOk result (lines.new.items ≡ lines.old.items ++ lines_of_client firsts.now column.now client) }
{
    for seq in 1..column.next_seq(client) {
        push_line(lines, column, firsts, TxnId { client, seq })?;
    }
    Ok(())
}

// Appends the lines of the client's attempts, where its column has this number.
fn push_client_at(
    lines: &mut Vec<AttemptLine>,
    columns: &[Column],
    number: u32,
    firsts: &FirstLearnings,
    client: u32,
) -> Result<(), NoMemory>
    ensures { OnOk result (lines.new.items ≡ lines.old.items ++ lines_of_client firsts.now (view_at columns.now number) client) }
{
    let Some(column) = columns.get(number as usize) else {
        return Ok(());
    };
    if !column.has_client(client) {
        return Ok(());
    }
    push_client(lines, column, firsts, client)
}

/// The lines of all clients' attempts, in order, where these are the numbers of the clients' columns.
pub(crate) fn lines(
    alloc: Global,
    columns: &[Column],
    client_columns: &[u32],
    firsts: &FirstLearnings,
) -> Result<Vec<AttemptLine>, NoMemory>
    requires { length client_columns.now ≤ 64 }
    ensures { IfOk result (λ lines. lines.items ≡ lines_of_views firsts.now columns.now 1 client_columns.now) }
{
    let mut lines = Vec::new(alloc);
    for (place, number) in client_columns.iter().enumerate() {
        push_client_at(&mut lines, columns, *number, firsts, place as u32 + 1)?;
    }
    Ok(lines)
}
