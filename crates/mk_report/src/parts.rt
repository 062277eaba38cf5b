//! The parts of a report's lines.
ghost use Rattle.std.specs.Prelude.{◌≡◌, ◌++◌, ◌-◌, OnOk};
ghost use Rattle.std.specs.Fmt.{decimal};
ghost use Rattle.std.specs.List.{flat_map};
ghost use Rattle.std.specs.String.{string_bytes};
ghost use Rattle.mk_script.specs.Printed.{key_name};
ghost use Rattle.mk_report.specs.ReportTexts as spec;

use itoa::Buffer;
use mk_history::{Left, Path, State};
use mk_names::Names;
use mk_txn::{Cause, Conflict, Outcome, ReadItem, Reason, Stamp, TxnId, Value, WriteItem};
use mk_words::GlobalAnswer;
use std::alloc::AllocError;

/// The name of this number, which counts from 0.
pub fn name_of(names: &Names, number: u32) -> &str
    ensures { result.now ≡ key_name names.now.names number }
{
    match names.name(number) {
        Some(name) => name,
        None => "",
    }
}

/// Writes the digits of a number.
pub(crate) fn put_number(out: &mut String, n: u64) -> Result<(), AllocError>
    ensures { OnOk result (string_bytes out.new ≡ string_bytes out.old ++ decimal n) }
{
    let mut digits = Buffer::new();
    out.push_str(digits.format(n))
}

// Writes a text and the digits of a number.
fn put_counted(out: &mut String, text: &str, n: u32) -> Result<(), AllocError>
    ensures { OnOk result (string_bytes out.new ≡ string_bytes out.old ++ (text.now ++ decimal n)) }
{
    out.push_str(text)?;
    put_number(out, u64::from(n))
}

pub fn put_id(out: &mut String, clients: &Names, id: TxnId) -> Result<(), AllocError>
    ensures { OnOk result (string_bytes out.new ≡ string_bytes out.old ++ spec.attempt_name clients.now.names id) }
{
    out.push_str(name_of(clients, id.client.saturating_sub(1)))?;
    out.push_str(".")?;
    put_number(out, u64::from(id.seq))
}

pub fn put_stamp(out: &mut String, stamp: Stamp) -> Result<(), AllocError>
    ensures { OnOk result (string_bytes out.new ≡ string_bytes out.old ++ spec.stamp_text stamp) }
{
    put_number(out, stamp.time)?;
    out.push_str(".")?;
    put_number(out, u64::from(stamp.client))
}

pub fn put_value(out: &mut String, value: Value) -> Result<(), AllocError>
    ensures { OnOk result (string_bytes out.new ≡ string_bytes out.old ++ spec.value_text value) }
{
    match value {
        Value::Number(n) => put_number(out, n),
        Value::Absent => out.push_str("none"),
    }
}

pub fn put_path(out: &mut String, path: Path) -> Result<(), AllocError>
    ensures { OnOk result (string_bytes out.new ≡ string_bytes out.old ++ spec.path_text path) }
{
    match path {
        Path::Fast => out.push_str("fast"),
        Path::Slow => out.push_str("slow"),
        Path::Takeover(view) => put_counted(out, "takeover ", view),
        Path::Epoch(epoch) => put_counted(out, "epoch ", epoch),
        Path::Moved(epoch) => put_counted(out, "moved ", epoch),
    }
}

fn reason_word(reason: Reason) -> &'static str
    ensures { result.now ≡ spec.reason_text reason }
{
    match reason {
        Reason::ReadStale => "read-stale",
        Reason::ReadPending => "read-pending",
        Reason::WriteLate => "write-late",
        Reason::WritePending => "write-pending",
    }
}

/// Writes the key of a conflict, by its name, what the check met there, and its stamp.
pub fn put_conflict(out: &mut String, keys: &Names, conflict: Conflict) -> Result<(), AllocError>
    ensures { OnOk result (string_bytes out.new ≡ string_bytes out.old ++ spec.conflict_text keys.now.names conflict) }
{
    out.push_str("conflict ")?;
    out.push_str(name_of(keys, conflict.key))?;
    out.push_str(" ")?;
    out.push_str(reason_word(conflict.reason))?;
    out.push_str(" ")?;
    put_stamp(out, conflict.stamp)
}

pub fn put_cause(out: &mut String, keys: &Names, cause: Cause) -> Result<(), AllocError>
    ensures { OnOk result (string_bytes out.new ≡ string_bytes out.old ++ spec.cause_text keys.now.names cause) }
{
    match cause {
        Cause::Conflict(conflict) => put_conflict(out, keys, conflict),
        Cause::Takeover(view) => put_counted(out, "takeover ", view),
        Cause::Epoch(epoch) => put_counted(out, "epoch ", epoch),
    }
}

fn put_outcome(
    out: &mut String,
    keys: &Names,
    outcome: Outcome,
    path: Path,
) -> Result<(), AllocError>
    ensures { OnOk result (string_bytes out.new ≡ string_bytes out.old ++ spec.outcome_text keys.now.names outcome path) }
{
    match outcome {
        Outcome::Commit => {
            out.push_str("commit ")?;
            put_path(out, path)
        }
        Outcome::Abort(cause) => {
            out.push_str("abort ")?;
            put_path(out, path)?;
            out.push_str(" because ")?;
            put_cause(out, keys, cause)
        }
    }
}

pub fn put_left(out: &mut String, left: Left) -> Result<(), AllocError>
    ensures { OnOk result (string_bytes out.new ≡ string_bytes out.old ++ spec.left_text left) }
{
    match left {
        Left::Unread => out.push_str("unread"),
        Left::Short(n) => put_counted(out, "short ", n),
        Left::Unaccepted(n) => put_counted(out, "unaccepted ", n),
        Left::Stopped => out.push_str("stopped"),
        Left::Unclear { ok, not_ok } => {
            put_counted(out, "unclear ", ok)?;
            put_counted(out, " ", not_ok)
        }
    }
}

pub fn put_state(out: &mut String, keys: &Names, state: State) -> Result<(), AllocError>
    ensures { OnOk result (string_bytes out.new ≡ string_bytes out.old ++ spec.state_text keys.now.names state) }
{
    match state {
        State::Learned { outcome, path } => put_outcome(out, keys, outcome, path),
        State::Left(left) => {
            out.push_str("open ")?;
            put_left(out, left)
        }
    }
}

fn put_read(out: &mut String, keys: &Names, item: ReadItem) -> Result<(), AllocError>
    ensures { OnOk result (string_bytes out.new ≡ string_bytes out.old ++ spec.read_text keys.now.names item) }
{
    out.push_str(" r:")?;
    out.push_str(name_of(keys, item.key))?;
    out.push_str("@")?;
    put_stamp(out, item.version)?;
    out.push_str("=")?;
    put_value(out, item.value)
}

pub fn put_reads(out: &mut String, keys: &Names, reads: &[ReadItem]) -> Result<(), AllocError>
    ensures { OnOk result (string_bytes out.new ≡ string_bytes out.old ++ flat_map (spec.read_text keys.now.names) reads.now) }
{
    'each: for item in reads {
        put_read(out, keys, *item)?;
    }
    Ok(())
}

fn put_write(out: &mut String, keys: &Names, item: WriteItem) -> Result<(), AllocError>
    ensures { OnOk result (string_bytes out.new ≡ string_bytes out.old ++ spec.write_text keys.now.names item) }
{
    out.push_str(" w:")?;
    out.push_str(name_of(keys, item.key))?;
    out.push_str("=")?;
    put_value(out, item.value)
}

pub fn put_writes(out: &mut String, keys: &Names, writes: &[WriteItem]) -> Result<(), AllocError>
    ensures { OnOk result (string_bytes out.new ≡ string_bytes out.old ++ flat_map (spec.write_text keys.now.names) writes.now) }
{
    'each: for item in writes {
        put_write(out, keys, *item)?;
    }
    Ok(())
}

pub fn put_answer(out: &mut String, answer: GlobalAnswer) -> Result<(), AllocError>
    ensures { OnOk result (string_bytes out.new ≡ string_bytes out.old ++ spec.answer_text answer) }
{
    match answer {
        GlobalAnswer::Ok => write!(out, " ok")?,
        GlobalAnswer::Counts { commits, aborts } => write!(out, " ok {commits} {aborts}")?,
        GlobalAnswer::Entered(n) => write!(out, " ok {n}")?,
        GlobalAnswer::Unasked => write!(out, " unasked")?,
        GlobalAnswer::Unmade => write!(out, " unmade")?,
        GlobalAnswer::Lacking => write!(out, " lacking")?,
        GlobalAnswer::Old(epoch) => write!(out, " old {epoch}")?,
        GlobalAnswer::WordFault => write!(out, " word-fault")?,
        GlobalAnswer::Short(n) => write!(out, " short {n}")?,
    }
    Ok(())
}
