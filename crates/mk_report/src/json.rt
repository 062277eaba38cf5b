//! The parts of a run's JSON.
ghost use Rattle.std.specs.Prelude.{◌≡◌, ◌++◌, IfOk, OnOk, map};
ghost use Rattle.std.specs.List.{flat_map};
ghost use Rattle.std.specs.String.{string_bytes};
ghost use Rattle.serde_json.specs.Data.{string};
ghost use Rattle.serde_json.specs.View.{view};
ghost use Rattle.mk_report.specs.ReportTexts.{stamp_text, attempt_name, cause_text};
ghost use Rattle.mk_report.specs.JsonValues as spec;

use crate::lines::put_answered;
use crate::parts::{name_of, put_cause, put_id, put_left, put_path, put_stamp};
use crate::stores::{ZERO, by_name};
use mk_history::{RoundLog, State};
use mk_names::Names;
use mk_replay::OneCopy;
use mk_run::AttemptLine;
use mk_txn::{Cause, NoMemory, Outcome, ReadItem, Stamp, TxnId, Value, WriteItem, precedes};
use mk_words::GlobalEntry;
use serde_json::{Value as Json, json};
use std::alloc::{AllocError, Global};

fn json_stamp(alloc: Global, stamp: Stamp) -> Result<Json, AllocError>
    ensures { IfOk result (λ v. view v ≡ string (stamp_text stamp)) }
{
    let mut out = String::new(alloc);
    put_stamp(&mut out, stamp)?;
    Ok(Json::from(out))
}

fn json_stamp_or_null(alloc: Global, stamp: Option<Stamp>) -> Result<Json, AllocError>
    ensures { IfOk result (λ v. view v ≡ spec.stamp_data stamp) }
{
    match stamp {
        None => Ok(Json::Null),
        Some(stamp) => json_stamp(alloc, stamp),
    }
}

fn json_id(alloc: Global, clients: &Names, id: TxnId) -> Result<Json, AllocError>
    ensures { IfOk result (λ v. view v ≡ string (attempt_name clients.now.names id)) }
{
    let mut out = String::new(alloc);
    put_id(&mut out, clients, id)?;
    Ok(Json::from(out))
}

fn json_value(value: Value) -> Json
    ensures { view result ≡ spec.value_data value }
{
    match value {
        Value::Number(n) => Json::from(n),
        Value::Absent => Json::Null,
    }
}

fn outcome_word(state: State) -> &'static str
    ensures { result.now ≡ spec.outcome_word state }
{
    match state {
        State::Learned { outcome, path: _ } => match outcome {
            Outcome::Commit => "commit",
            Outcome::Abort(_) => "abort",
        },
        State::Left(_) => "open",
    }
}

fn put_way(out: &mut String, state: State) -> Result<(), AllocError>
    ensures { OnOk result (string_bytes out.new ≡ string_bytes out.old ++ spec.way_text state) }
{
    match state {
        State::Learned { outcome: _, path } => put_path(out, path),
        State::Left(left) => put_left(out, left),
    }
}

fn json_way(alloc: Global, state: State) -> Result<Json, AllocError>
    ensures { IfOk result (λ v. view v ≡ string (spec.way_text state)) }
{
    let mut out = String::new(alloc);
    put_way(&mut out, state)?;
    Ok(Json::from(out))
}

fn json_reason(alloc: Global, keys: &Names, cause: Cause) -> Result<Json, AllocError>
    ensures { IfOk result (λ v. view v ≡ string (cause_text keys.now.names cause)) }
{
    let mut out = String::new(alloc);
    put_cause(&mut out, keys, cause)?;
    Ok(Json::from(out))
}

fn json_cause(alloc: Global, keys: &Names, state: State) -> Result<Json, AllocError>
    ensures { IfOk result (λ v. view v ≡ spec.cause_data keys.now.names state) }
{
    match state {
        State::Learned { outcome, path: _ } => match outcome {
            Outcome::Commit => Ok(Json::Null),
            Outcome::Abort(cause) => json_reason(alloc, keys, cause),
        },
        State::Left(_) => Ok(Json::Null),
    }
}

fn json_read(alloc: Global, keys: &Names, item: ReadItem) -> Result<Json, AllocError>
    ensures { IfOk result (λ v. view v ≡ spec.read_data keys.now.names item) }
{
    let key = name_of(keys, item.key);
    let value = json_value(item.value);
    let version = json_stamp(alloc, item.version)?;
    json!(in alloc; {"key": key, "value": value, "version": version})
}

fn json_reads(alloc: Global, keys: &Names, reads: &[ReadItem]) -> Result<Json, AllocError>
    ensures { IfOk result (λ v. view v ≡ spec.list_data (map (spec.read_data keys.now.names) reads.now)) }
{
    let mut list = Vec::new(alloc);
    'each: for item in reads {
        list.push(json_read(alloc, keys, *item)?)?;
    }
    Ok(Json::from(list))
}

fn json_write(alloc: Global, keys: &Names, item: WriteItem) -> Result<Json, AllocError>
    ensures { IfOk result (λ v. view v ≡ spec.write_data keys.now.names item) }
{
    let key = name_of(keys, item.key);
    let value = json_value(item.value);
    json!(in alloc; {"key": key, "value": value})
}

fn json_writes(alloc: Global, keys: &Names, writes: &[WriteItem]) -> Result<Json, AllocError>
    ensures { IfOk result (λ v. view v ≡ spec.list_data (map (spec.write_data keys.now.names) writes.now)) }
{
    let mut list = Vec::new(alloc);
    'each: for item in writes {
        list.push(json_write(alloc, keys, *item)?)?;
    }
    Ok(Json::from(list))
}

fn json_attempt(
    alloc: Global,
    clients: &Names,
    keys: &Names,
    attempt: &AttemptLine,
) -> Result<Json, AllocError>
    ensures { IfOk result (λ v. view v ≡ spec.attempt_data clients.now.names keys.now.names attempt.now) }
{
    let cause = json_cause(alloc, keys, attempt.state)?;
    let id = json_id(alloc, clients, attempt.id)?;
    let outcome = outcome_word(attempt.state);
    let path = json_way(alloc, attempt.state)?;
    let reads = json_reads(alloc, keys, attempt.reads.as_slice())?;
    let stamp = json_stamp_or_null(alloc, attempt.stamp)?;
    let writes = json_writes(alloc, keys, attempt.writes.as_slice())?;
    json!(in alloc; {
        "cause": cause,
        "id": id,
        "outcome": outcome,
        "path": path,
        "reads": reads,
        "stamp": stamp,
        "writes": writes
    })
}

/// The attempts of these lines.
pub fn json_attempts(
    alloc: Global,
    clients: &Names,
    keys: &Names,
    lines: &[AttemptLine],
) -> Result<Json, AllocError>
    ensures { IfOk result (λ v. view v ≡ spec.list_data (map (spec.attempt_data clients.now.names keys.now.names) lines.now)) }
{
    let mut list = Vec::new(alloc);
    'each: for line in lines {
        list.push(json_attempt(alloc, clients, keys, line)?)?;
    }
    Ok(Json::from(list))
}

fn json_global(alloc: Global, entry: GlobalEntry) -> Result<Json, AllocError>
    ensures { IfOk result (λ v. view v ≡ spec.global_data entry) }
{
    let mut out = String::new(alloc);
    put_answered(&mut out, entry)?;
    Ok(Json::from(out))
}

fn push_globals(
    list: &mut Vec<Json>,
    alloc: Global,
    entries: &[GlobalEntry],
) -> Result<(), AllocError>
    ensures { OnOk result (map view list.new.items ≡ map view list.old.items ++ map spec.global_data entries.now) }
{
    'each: for entry in entries {
        list.push(json_global(alloc, *entry)?)?;
    }
    Ok(())
}

/// The global lines of these rounds.
pub fn json_globals(alloc: Global, rounds: &[RoundLog]) -> Result<Json, AllocError>
    ensures { IfOk result (λ v. view v ≡ spec.list_data (flat_map spec.round_data rounds.now)) }
{
    let mut list = Vec::new(alloc);
    'each: for round in rounds {
        push_globals(&mut list, alloc, round.globals.as_slice())?;
    }
    Ok(Json::from(list))
}

fn json_stored(alloc: Global, name: &str, version: Stamp, n: u64) -> Result<Json, AllocError>
    ensures { IfOk result (λ v. view v ≡ spec.stored_data name.now version n) }
{
    let version = json_stamp(alloc, version)?;
    json!(in alloc; {"key": name, "value": n, "version": version})
}

fn push_held(
    list: &mut Vec<Json>,
    alloc: Global,
    name: &str,
    version: Stamp,
    value: Value,
) -> Result<(), AllocError>
    ensures { OnOk result (map view list.new.items ≡ map view list.old.items ++ spec.held_data name.now (record { version = version; value = value })) }
{
    match value {
        Value::Number(n) if precedes(ZERO, version) => {
            list.push(json_stored(alloc, name, version, n)?)?;
        }
        _ => {}
    }
    Ok(())
}

fn push_key(
    list: &mut Vec<Json>,
    alloc: Global,
    copy: &OneCopy,
    name: &str,
    key: u32,
) -> Result<(), AllocError>
    ensures { OnOk result (map view list.new.items ≡ map view list.old.items ++ spec.entry_data copy.now (name.now, key)) }
{
    let (version, value) = copy.get(key);
    push_held(list, alloc, name, version, value)
}

/// What the one copy holds: each key that was written and has a number, in byte order of names.
pub fn json_stores(alloc: Global, keys: &Names, copy: &OneCopy) -> Result<Json, NoMemory>
    ensures { IfOk result (λ v. view v ≡ spec.list_data (spec.stores_data keys.now.names copy.now)) }
{
    let table = by_name(alloc, keys)?;
    let mut list = Vec::new(alloc);
    'each: for (name, number) in &table {
        push_key(&mut list, alloc, copy, name, *number)?;
    }
    Ok(Json::from(list))
}
