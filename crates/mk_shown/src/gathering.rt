//! The mark stamps of columns, and the watermark.
ghost use Rattle.std.specs.Prelude.{◌≡◌, ◌≤◌, ◌<◌, ◌++◌, length, IsSome, IfOk, OnOk};
ghost use Rattle.mk_model.specs.ColumnState.{attempt_of, client_of};
ghost use Rattle.mk_history.specs.Histories.{clients_of as clients_in};
ghost use Rattle.mk_run.specs.Attempts.{begun_by};
ghost use Rattle.mk_shown.specs.Gathering as spec;

use crate::marks::{StampedAttempt, earlier, mark_for};
use mk_column::Column;
use mk_run::Walk;
use mk_txn::{NoMemory, Stamp, TxnId};
use std::alloc::Global;

// Whether the attempt is decided in its column, or was told at an Enter.
fn is_closed(walk: &Walk, column: &Column, id: TxnId) -> bool
    ensures { result ≡ spec.closed_by walk.now column.now.state id }
{
    column.decided(id).is_some() || walk.is_settled(id)
}

// The attempt more, where it is there and stamped.
fn push_attempt(
    stamped: &mut Vec<StampedAttempt>,
    walk: &Walk,
    column: &Column,
    id: TxnId,
) -> Result<(), NoMemory>
    ensures { OnOk result (stamped.new.items ≡ stamped.old.items ++ spec.gathered_attempt (spec.closed_by walk.now column.now.state) (attempt_of column.now.state id)) }
{
    let Some(attempt) = column.attempt(id) else {
        return Ok(());
    };
    let Some(txn) = &attempt.txn else {
        return Ok(());
    };
    let id = txn.id();
    stamped.push(StampedAttempt {
        id,
        stamp: txn.stamp(),
        closed: is_closed(walk, column, id),
    })?;
    Ok(())
}

// The client's stamped attempts more.
fn push_client(
    stamped: &mut Vec<StampedAttempt>,
    walk: &Walk,
    column: &Column,
    client: u32,
) -> Result<(), NoMemory>
    requires { IsSome (client_of column.now.state client) }
    ensures { OnOk result (stamped.new.items ≡ stamped.old.items ++ spec.gathered_from (spec.closed_by walk.now column.now.state) column.now.state client 1 (begun_by column.now.state client)) }
{
    'each: for seq in 1..column.next_seq(client) {
        push_attempt(stamped, walk, column, TxnId { client, seq })?;
    }
    Ok(())
}

// The same, where the client is of the column.
fn push_client_of(
    stamped: &mut Vec<StampedAttempt>,
    walk: &Walk,
    column: &Column,
    client: u32,
) -> Result<(), NoMemory>
    ensures { OnOk result (stamped.new.items ≡ stamped.old.items ++ spec.gathered_from (spec.closed_by walk.now column.now.state) column.now.state client 1 (begun_by column.now.state client)) }
{
    if column.has_client(client) {
        push_client(stamped, walk, column, client)
    } else {
        Ok(())
    }
}

// The stamped attempts of these clients of the column.
fn gathered(
    alloc: Global,
    walk: &Walk,
    column: &Column,
    clients: &[u32],
) -> Result<Vec<StampedAttempt>, NoMemory>
    ensures { IfOk result (λ stamped. stamped.items ≡ spec.gathered (spec.closed_by walk.now column.now.state) column.now.state clients.now) }
{
    let mut stamped = Vec::new(alloc);
    'each: for client in clients {
        push_client_of(&mut stamped, walk, column, *client)?;
    }
    Ok(stamped)
}

// The numbers of the column's clients.
fn clients_of(alloc: Global, client_columns: &[u32], column: u32) -> Result<Vec<u32>, NoMemory>
    requires { length client_columns.now ≤ 64 }
    ensures { IfOk result (λ clients. clients.items ≡ clients_in column 1 client_columns.now) }
{
    let mut clients = Vec::new(alloc);
    'each: for (place, number) in client_columns.iter().enumerate() {
        if *number == column {
            clients.push(place as u32 + 1)?;
        }
    }
    Ok(clients)
}

// The mark stamp of the column, which has this number.
fn mark_of(
    alloc: Global,
    walk: &Walk,
    column: &Column,
    number: u32,
    client_columns: &[u32],
) -> Result<Stamp, NoMemory>
    requires { length client_columns.now ≤ 64 }
    ensures { IfOk result (λ stamp. stamp ≡ spec.mark_by walk.now client_columns.now number column.now.state) }
{
    let clients = clients_of(alloc, client_columns, number)?;
    let stamped = gathered(alloc, walk, column, clients.as_slice())?;
    Ok(mark_for(stamped.as_slice(), clients.as_slice()))
}

/// The least of the columns' mark stamps, where there is a column.
pub(crate) fn watermark(
    alloc: Global,
    walk: &Walk,
    client_columns: &[u32],
) -> Result<Stamp, NoMemory>
    requires some { 0 < length walk.now.whole.columns }
    requires few { length walk.now.whole.columns ≤ 8 }
    requires clients { length client_columns.now ≤ 64 }
    ensures { IfOk result (λ stamp. stamp ≡ spec.watermark_by walk.now client_columns.now) }
{
    let columns = walk.columns();
    let mut least = mark_of(alloc, walk, &columns[0], 0, client_columns)?;
    'each: for number in 1..columns.len() {
        let mark = mark_of(alloc, walk, &columns[number], number as u32, client_columns)?;
        least = earlier(least, mark);
    }
    Ok(least)
}
