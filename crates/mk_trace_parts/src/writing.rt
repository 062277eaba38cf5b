//! The text of a run.
ghost use Rattle.std.specs.Prelude.{◌≡◌, ◌+◌, ◌++◌, ◌∷◌, [], OnOk, IfOk, map};
ghost use Rattle.std.specs.String.{string_bytes};
ghost use Rattle.mk_trace_lines.specs.TraceLines.{text_of, line_text, key_name};
ghost use Rattle.mk_trace_lines.specs.TraceLines.TraceLine.{Opens, Sizes, Declares, Begins};
ghost use Rattle.mk_history.specs.Shape.{HasShape};
ghost use Rattle.mk_trace_text.specs.Begun as counts;
ghost use Rattle.mk_trace_text.specs.Traces as spec;

use crate::rounds::raise;
use mk_history::RoundLog;
use mk_kept::{Head, Run};
use mk_names::Names;
use mk_trace_lines::{key_name, key_name_at, put_change, put_entry, put_step};
use mk_txn::NoMemory;
use mk_words::{GlobalEntry, JournalEntry, Step};
use std::alloc::{AllocError, Global};

/// The trace of the run.
pub fn write_text(alloc: Global, run: &Run) -> Result<Vec<u8>, NoMemory>
    ensures text { IfOk result (λ bytes. bytes.items ≡ spec.trace_text run.now) }
    ensures shape { HasShape run.now }
{
    let head = run.head();
    let clients = &head.client_names;
    let keys = &head.key_names;
    let columns = head.client_columns.as_slice();
    let mut out = String::new(alloc);
    put_opening(&mut out, head)?;
    put_clients(&mut out, clients, keys, columns)?;
    put_keys(&mut out, clients, keys)?;
    let mut begun = no_attempts(alloc, columns)?;
    put_rounds(&mut out, clients, keys, &mut begun, run.rounds())?;
    writeln!(out, "end")?;
    Ok(out.into_bytes())
}

fn put_opening(out: &mut String, head: &Head) -> Result<(), AllocError>
    ensures { OnOk result (string_bytes out.new ≡ string_bytes out.old ++
        text_of head.now.client_names.names head.now.key_names.names (Opens head.now.version ∷ Sizes head.now.size ∷ [])) }
{
    let version = head.version;
    let f = head.size.f();
    writeln!(out, "meerkat-trace {version}")?;
    writeln!(out, "size {f}")?;
    Ok(())
}

fn put_client(
    out: &mut String,
    clients: &Names,
    keys: &Names,
    place: usize,
    column: u32,
) -> Result<(), AllocError>
    ensures { OnOk result (string_bytes out.new ≡ string_bytes out.old ++
        line_text clients.now.names keys.now.names (Declares (key_name clients.now.names place) column)) }
{
    let name = key_name_at(clients, place);
    writeln!(out, "client {name} {column}")?;
    Ok(())
}

fn put_clients(
    out: &mut String,
    clients: &Names,
    keys: &Names,
    columns: &[u32],
) -> Result<(), AllocError>
    ensures { OnOk result (string_bytes out.new ≡ string_bytes out.old ++
        text_of clients.now.names keys.now.names (spec.client_lines clients.now.names 0 columns.now)) }
{
    'each: for (place, column) in columns.iter().enumerate() {
        put_client(out, clients, keys, place, *column)?;
    }
    Ok(())
}

fn put_keys(out: &mut String, clients: &Names, keys: &Names) -> Result<(), AllocError>
    ensures { OnOk result (string_bytes out.new ≡ string_bytes out.old ++ text_of clients.now.names keys.now.names (map spec.key_line keys.now.names)) }
{
    'each: for number in 0..keys.len() {
        let name = key_name(keys, number);
        writeln!(out, "key {name}")?;
    }
    Ok(())
}

/// No attempt of any client.
fn no_attempts(alloc: Global, columns: &[u32]) -> Result<Vec<u32>, AllocError>
    ensures { IfOk result (λ begun. begun.items ≡ spec.zeros columns.now) }
{
    let mut begun: Vec<u32> = Vec::new(alloc);
    'each: for _ in columns {
        begun.push(0)?;
    }
    Ok(begun)
}

/// The client whose attempt a step begins.
fn beginner(step: &Step) -> Option<u32>
    ensures { result ≡ counts.beginner step.now }
{
    match step {
        Step::Begin { client, .. } | Step::Unread { client } => Some(*client),
        _ => None,
    }
}

/// How many attempts the client of this number has begun.
fn begun_of(begun: &[u32], client: u32) -> u32
    ensures { result ≡ counts.begun_of begun.now client }
{
    match begun.get(client.saturating_sub(1) as usize) {
        Some(count) => *count,
        None => 0,
    }
}

fn put_next_step(
    out: &mut String,
    clients: &Names,
    keys: &Names,
    begun: &mut Vec<u32>,
    step: &Step,
) -> Result<(), AllocError>
    ensures text { OnOk result (string_bytes out.new ≡ string_bytes out.old ++
        text_of clients.now.names keys.now.names (spec.step_line begun.old.items step.now ∷ [])) }
    ensures begun { OnOk result (begun.new.items ≡ counts.begun_after begun.old.items step.now) }
{
    match beginner(step) {
        Some(client) => {
            let seq = u64::from(begun_of(begun, client)) + 1;
            raise(begun, client);
            put_step(out, clients, keys, seq, step)
        }
        None => put_step(out, clients, keys, 0, step),
    }
}

fn put_steps(
    out: &mut String,
    clients: &Names,
    keys: &Names,
    begun: &mut Vec<u32>,
    steps: &[Step],
) -> Result<(), AllocError>
    ensures text { OnOk result (string_bytes out.new ≡ string_bytes out.old ++
        text_of clients.now.names keys.now.names (spec.step_lines begun.old.items steps.now)) }
    ensures begun { OnOk result (begun.new.items ≡ counts.begun_through begun.old.items steps.now) }
{
    'each: for step in steps {
        put_next_step(out, clients, keys, begun, step)?;
    }
    Ok(())
}

fn put_log(
    out: &mut String,
    clients: &Names,
    keys: &Names,
    begun: &mut Vec<u32>,
    column: usize,
    steps: &[Step],
) -> Result<(), AllocError>
    ensures text { OnOk result (string_bytes out.new ≡ string_bytes out.old ++
        text_of clients.now.names keys.now.names (spec.log_lines begun.old.items column steps.now)) }
    ensures begun { OnOk result (begun.new.items ≡ counts.begun_through begun.old.items steps.now) }
{
    match steps {
        [] => Ok(()),
        _ => {
            writeln!(out, "column {column}")?;
            put_steps(out, clients, keys, begun, steps)
        }
    }
}

fn put_logs(
    out: &mut String,
    clients: &Names,
    keys: &Names,
    begun: &mut Vec<u32>,
    logs: &[Vec<Step>],
) -> Result<(), AllocError>
    ensures text { OnOk result (string_bytes out.new ≡ string_bytes out.old ++
        text_of clients.now.names keys.now.names (spec.logs_lines begun.old.items 0 (map (λ log. log.items) logs.now))) }
    ensures begun { OnOk result (begun.new.items ≡ counts.begun_in begun.old.items (map (λ log. log.items) logs.now)) }
{
    'each: for (column, log) in logs.iter().enumerate() {
        put_log(out, clients, keys, begun, column, log.as_slice())?;
    }
    Ok(())
}

fn put_entries(
    out: &mut String,
    clients: &Names,
    keys: &Names,
    entries: &[JournalEntry],
) -> Result<(), AllocError>
    ensures { OnOk result (string_bytes out.new ≡ string_bytes out.old ++ text_of clients.now.names keys.now.names (map spec.entry_line entries.now)) }
{
    'each: for entry in entries {
        put_entry(out, clients, keys, *entry)?;
    }
    Ok(())
}

fn put_journal(
    out: &mut String,
    clients: &Names,
    keys: &Names,
    replica: usize,
    key: usize,
    entries: &[JournalEntry],
) -> Result<(), AllocError>
    ensures { OnOk result (string_bytes out.new ≡ string_bytes out.old ++
        text_of clients.now.names keys.now.names (spec.journal_lines replica key entries.now)) }
{
    match entries {
        [] => Ok(()),
        _ => {
            let name = key_name_at(keys, key);
            writeln!(out, "cell {replica} {name}")?;
            put_entries(out, clients, keys, entries)
        }
    }
}

fn put_replica(
    out: &mut String,
    clients: &Names,
    keys: &Names,
    replica: usize,
    journals: &[Vec<JournalEntry>],
) -> Result<(), AllocError>
    ensures { OnOk result (string_bytes out.new ≡ string_bytes out.old ++
        text_of clients.now.names keys.now.names (spec.replica_lines replica 0 (map (λ key. key.items) journals.now))) }
{
    'each: for (key, journal) in journals.iter().enumerate() {
        put_journal(out, clients, keys, replica, key, journal.as_slice())?;
    }
    Ok(())
}

fn put_journals(
    out: &mut String,
    clients: &Names,
    keys: &Names,
    journals: &[Vec<Vec<JournalEntry>>],
) -> Result<(), AllocError>
    ensures { OnOk result (string_bytes out.new ≡ string_bytes out.old ++
        text_of clients.now.names keys.now.names (spec.journals_lines 0 (map (λ replica. map (λ key. key.items) replica.items) journals.now))) }
{
    'each: for (replica, journal) in journals.iter().enumerate() {
        put_replica(out, clients, keys, replica, journal.as_slice())?;
    }
    Ok(())
}

fn put_each_change(
    out: &mut String,
    clients: &Names,
    keys: &Names,
    globals: &[GlobalEntry],
) -> Result<(), AllocError>
    ensures { OnOk result (string_bytes out.new ≡ string_bytes out.old ++ text_of clients.now.names keys.now.names (map spec.change_line globals.now)) }
{
    'each: for entry in globals {
        put_change(out, clients, keys, *entry)?;
    }
    Ok(())
}

fn put_changes(
    out: &mut String,
    clients: &Names,
    keys: &Names,
    globals: &[GlobalEntry],
) -> Result<(), AllocError>
    ensures { OnOk result (string_bytes out.new ≡ string_bytes out.old ++ text_of clients.now.names keys.now.names (spec.change_lines globals.now)) }
{
    match globals {
        [] => Ok(()),
        _ => {
            writeln!(out, "global")?;
            put_each_change(out, clients, keys, globals)
        }
    }
}

fn put_round_heading(
    out: &mut String,
    clients: &Names,
    keys: &Names,
    place: usize,
) -> Result<(), AllocError>
    ensures { OnOk result (string_bytes out.new ≡ string_bytes out.old ++ line_text clients.now.names keys.now.names (Begins (place + 1))) }
{
    let number = place as u128 + 1;
    writeln!(out, "round {number}")?;
    Ok(())
}

fn put_round(
    out: &mut String,
    clients: &Names,
    keys: &Names,
    begun: &mut Vec<u32>,
    place: usize,
    round: &RoundLog,
) -> Result<(), AllocError>
    ensures text { OnOk result (string_bytes out.new ≡ string_bytes out.old ++
        text_of clients.now.names keys.now.names (spec.round_lines begun.old.items place round.now)) }
    ensures begun { OnOk result (begun.new.items ≡ counts.begun_in begun.old.items round.now.logs) }
{
    put_round_heading(out, clients, keys, place)?;
    put_logs(out, clients, keys, begun, round.logs.as_slice())?;
    put_journals(out, clients, keys, round.journals.as_slice())?;
    put_changes(out, clients, keys, round.globals.as_slice())
}

fn put_rounds(
    out: &mut String,
    clients: &Names,
    keys: &Names,
    begun: &mut Vec<u32>,
    rounds: &[RoundLog],
) -> Result<(), AllocError>
    ensures { OnOk result (string_bytes out.new ≡ string_bytes out.old ++
        text_of clients.now.names keys.now.names (spec.rounds_lines begun.old.items 0 rounds.now)) }
{
    'each: for (place, round) in rounds.iter().enumerate() {
        put_round(out, clients, keys, begun, place, round)?;
    }
    Ok(())
}
