//! The lines of a report.
ghost use Rattle.std.specs.Prelude.{◌≡◌, ◌∷◌, ◌++◌, [], OnOk};
ghost use Rattle.std.specs.List.{flat_map, join_with_byte};
ghost use Rattle.std.specs.String.{string_bytes};
ghost use Rattle.mk_script.specs.Grammar.{global_words};
ghost use Rattle.mk_report.specs.ReportTexts as spec;

use crate::parts::{put_answer, put_id, put_number, put_reads, put_stamp, put_state, put_writes};
use mk_names::Names;
use mk_run::AttemptLine;
use mk_txn::{Stamp, Value};
use mk_words::{GlobalEntry, GlobalLine};
use std::alloc::AllocError;

/// Writes the line of an attempt.
pub fn put_attempt(
    out: &mut String,
    clients: &Names,
    keys: &Names,
    attempt: &AttemptLine,
) -> Result<(), AllocError>
    ensures { OnOk result (string_bytes out.new ≡ string_bytes out.old ++ spec.attempt_text clients.now.names keys.now.names attempt.now) }
{
    put_id(out, clients, attempt.id)?;
    put_stamp_part(out, attempt.stamp)?;
    out.push_str(" ")?;
    put_state(out, keys, attempt.state)?;
    put_accesses(out, keys, attempt)
}

// What the attempt read and what it writes, to the line's end.
fn put_accesses(out: &mut String, keys: &Names, attempt: &AttemptLine) -> Result<(), AllocError>
    ensures { OnOk result (string_bytes out.new ≡ string_bytes out.old ++ (flat_map (spec.read_text keys.now.names) attempt.now.reads ++ (flat_map (spec.write_text keys.now.names) attempt.now.writes ++ 10 ∷ []))) }
{
    put_reads(out, keys, attempt.reads.as_slice())?;
    put_writes(out, keys, attempt.writes.as_slice())?;
    out.push_str("\n")
}

fn put_stamp_part(out: &mut String, stamp: Option<Stamp>) -> Result<(), AllocError>
    ensures { OnOk result (string_bytes out.new ≡ string_bytes out.old ++ spec.stamp_part stamp) }
{
    match stamp {
        None => Ok(()),
        Some(stamp) => {
            out.push_str(" @")?;
            put_stamp(out, stamp)
        }
    }
}

fn put_line(out: &mut String, line: GlobalLine) -> Result<(), AllocError>
    ensures { OnOk result (string_bytes out.new ≡ string_bytes out.old ++ join_with_byte 32 (global_words line)) }
{
    match line {
        GlobalLine::Wipe(replica) => write!(out, "wipe {replica}")?,
        GlobalLine::Ask(epoch) => write!(out, "ask {epoch}")?,
        GlobalLine::Promise { epoch, replica } => write!(out, "promise {epoch} {replica}")?,
        GlobalLine::Merge(epoch) => write!(out, "merge {epoch}")?,
        GlobalLine::Adopt { epoch, replica } => write!(out, "adopt {epoch} {replica}")?,
        GlobalLine::Enter(epoch) => write!(out, "enter {epoch}")?,
    }
    Ok(())
}

fn put_answer_part(out: &mut String, entry: GlobalEntry) -> Result<(), AllocError>
    ensures { OnOk result (string_bytes out.new ≡ string_bytes out.old ++ spec.answer_part entry.line entry.answer) }
{
    match entry.line {
        GlobalLine::Wipe(_) => Ok(()),
        GlobalLine::Ask(_) => Ok(()),
        GlobalLine::Promise {
            epoch: _,
            replica: _,
        } => put_answer(out, entry.answer),
        GlobalLine::Merge(_) => put_answer(out, entry.answer),
        GlobalLine::Adopt {
            epoch: _,
            replica: _,
        } => put_answer(out, entry.answer),
        GlobalLine::Enter(_) => put_answer(out, entry.answer),
    }
}

pub(crate) fn put_answered(out: &mut String, entry: GlobalEntry) -> Result<(), AllocError>
    ensures { OnOk result (string_bytes out.new ≡ string_bytes out.old ++ spec.answered_text entry) }
{
    put_line(out, entry.line)?;
    put_answer_part(out, entry)
}

/// Writes a global line with its answer.
pub fn put_global(out: &mut String, entry: GlobalEntry) -> Result<(), AllocError>
    ensures { OnOk result (string_bytes out.new ≡ string_bytes out.old ++ spec.global_text entry) }
{
    put_answered(out, entry)?;
    writeln!(out)?;
    Ok(())
}

/// Writes the line of what a key holds; an absent value has none.
pub fn put_store(
    out: &mut String,
    name: &str,
    version: Stamp,
    value: Value,
) -> Result<(), AllocError>
    ensures { OnOk result (string_bytes out.new ≡ string_bytes out.old ++ spec.store_text name.now version value) }
{
    match value {
        Value::Absent => Ok(()),
        Value::Number(n) => {
            out.push_str("store ")?;
            out.push_str(name)?;
            out.push_str(" ")?;
            put_stamp(out, version)?;
            out.push_str(" ")?;
            put_number(out, n)?;
            out.push_str("\n")
        }
    }
}

/// Writes the last line of a report.
pub fn put_end(out: &mut String, commits: u64, aborts: u64, opens: u64) -> Result<(), AllocError>
    ensures { OnOk result (string_bytes out.new ≡ string_bytes out.old ++ spec.end_text commits aborts opens) }
{
    writeln!(out, "end {commits} {aborts} {opens}")?;
    Ok(())
}

/// Writes how many store lines there are, and what their values come to.
pub fn put_summed(out: &mut String, count: u64, sum: u64) -> Result<(), AllocError>
    ensures { OnOk result (string_bytes out.new ≡ string_bytes out.old ++ spec.summed_text count sum) }
{
    writeln!(out, "store {count} {sum}")?;
    Ok(())
}
