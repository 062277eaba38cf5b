//! What `run --follow` writes of a run.
ghost use Rattle.std.specs.Prelude.{◌≡◌, ◌≢◌, ◌≤◌, ◌<◌, ◌++◌, List, IfOk, OnOk, length, if◌then◌else◌};
ghost use Rattle.std.specs.String.{string_bytes};
ghost use Rattle.mk_txn.specs.Transactions.{Transaction};
ghost use Rattle.mk_history.specs.Legality.{IsLegal};
ghost use Rattle.mk_history.specs.Learning.{commits as commits_of};
ghost use Rattle.mk_run.specs.Attempts.{outcomes_of};
ghost use Rattle.mk_model.specs.OneCopy.{version_in};
ghost use Rattle.mk_report.specs.StoreTexts.{is_written};
ghost use Rattle.mk_past.specs.Indexes.{IsPastOf};
ghost use Rattle.mk_past.specs.Pasts.{copy_at};
ghost use Rattle.mk_feed_words.specs.MarkStamps.{last_mark};
ghost use Rattle.mk_shown.specs.FollowTexts as spec;
ghost use Rattle.mk_shown.specs.Gathering.{watermark_by};

use crate::gathering::watermark;
use crate::laws::watermarks_are_shown;
use crate::marks::{LAST, ZERO};
use mk_names::Names;
use mk_past::Past;
use mk_report::{by_name, put_stamp, report_text};
use mk_run::{AttemptLine, Run, Walk};
use mk_txn::{NoMemory, Stamp, Value, precedes};
use std::alloc::{AllocError, Global};

// Whether the key was written by commits up to the stamp, as a number.
fn written_once(past: &Past, key: u32, stamp: Stamp) -> u32
    ensures few { result ≤ 1 }
    ensures is { (commits : List Transaction) → IsPastOf past.now commits → result ≡ (if is_written (version_in (copy_at stamp commits) key) then 1 else 0) }
{
    let (version, _) = past.at(key, stamp);
    if precedes(ZERO, version) { 1 } else { 0 }
}

// How many of these keys were written by commits up to the stamp.
fn written_at(past: &Past, keys: u32, stamp: Stamp) -> u32
    ensures { (commits : List Transaction) → IsPastOf past.now commits → result ≡ spec.written_in (copy_at stamp commits) keys }
{
    let mut count = 0;
    'each: for key in 0..keys {
        count += written_once(past, key, stamp);
    }
    count
}

fn put_shown(out: &mut String, round: u32, stamp: Stamp, count: u32) -> Result<(), AllocError>
    ensures { OnOk result (string_bytes out.new ≡ string_bytes out.old ++ spec.shown_text round stamp count) }
{
    write!(out, "shown {round} ")?;
    put_stamp(out, stamp)?;
    writeln!(out, " {count}")
}

// The line of what is shown after the round, where the run is walked through up to its end.
fn put_round(
    out: &mut String,
    alloc: Global,
    walk: &Walk,
    past: &Past,
    client_columns: &[u32],
    keys: u32,
    round: u32,
) -> Result<(), NoMemory>
    requires some { 0 < length walk.now.whole.columns }
    requires few { length walk.now.whole.columns ≤ 8 }
    requires clients { length client_columns.now ≤ 64 }
    ensures { OnOk result ((commits : List Transaction) → IsPastOf past.now commits →
        string_bytes out.new ≡ string_bytes out.old ++ spec.shown_text round (watermark_by walk.now client_columns.now) (spec.written_in (copy_at (watermark_by walk.now client_columns.now) commits) keys)) }
{
    let stamp = watermark(alloc, walk, client_columns)?;
    put_shown(out, round, stamp, written_at(past, keys, stamp))?;
    Ok(())
}

// The lines of what is shown after each round of a run with columns.
fn put_rounds(out: &mut String, alloc: Global, run: &Run, past: &Past) -> Result<(), NoMemory>
    requires legal { IsLegal run.now }
    requires past { IsPastOf past.now (commits_of run.now) }
    requires some { run.now.columns ≢ 0 }
    ensures { OnOk result (string_bytes out.new ≡ string_bytes out.old ++ spec.shown_lines run.now) }
{
    watermarks_are_shown();
    let head = run.head();
    let client_columns = head.client_columns.as_slice();
    let keys = head.key_names.len();
    let mut walk = Walk::new(alloc, head)?;
    'each: for (place, round) in run.rounds().iter().enumerate() {
        walk.replay(round)?;
        put_round(
            out,
            alloc,
            &walk,
            past,
            client_columns,
            keys,
            place as u32 + 1,
        )?;
    }
    Ok(())
}

fn put_line(out: &mut String, name: &str, version: Stamp, value: Value) -> Result<(), AllocError>
    ensures { OnOk result (string_bytes out.new ≡ string_bytes out.old ++ spec.follow_line name.now version value) }
{
    match value {
        Value::Absent => Ok(()),
        Value::Number(n) => {
            write!(out, "follow {name} ")?;
            put_stamp(out, version)?;
            writeln!(out, " {n}")
        }
    }
}

// The line of what is held of a key, where it was written.
fn put_followed(
    out: &mut String,
    name: &str,
    version: Stamp,
    value: Value,
) -> Result<(), AllocError>
    ensures { OnOk result (string_bytes out.new ≡ string_bytes out.old ++ spec.followed_text name.now (record { version = version; value = value })) }
{
    if precedes(ZERO, version) {
        put_line(out, name, version, value)
    } else {
        Ok(())
    }
}

// The lines of the picture at the last mark.
fn put_picture(out: &mut String, alloc: Global, keys: &Names, past: &Past) -> Result<(), NoMemory>
    ensures { OnOk result ((commits : List Transaction) → IsPastOf past.now commits → string_bytes out.new ≡ string_bytes out.old ++ spec.followed_lines keys.now.names (copy_at last_mark commits)) }
{
    let table = by_name(alloc, keys)?;
    'each: for (name, number) in &table {
        let (version, value) = past.at(*number, LAST);
        put_followed(out, name, version, value)?;
    }
    Ok(())
}

// What comes behind the report.
fn followed(alloc: Global, run: &Run, lines: &[AttemptLine]) -> Result<String, NoMemory>
    requires legal { IsLegal run.now }
    requires lines { lines.now ≡ outcomes_of run.now }
    ensures { IfOk result (λ text. string_bytes text ≡ spec.shown_lines run.now ++ spec.followed_lines run.now.key_names (copy_at last_mark (commits_of run.now))) }
{
    let past = Past::of_lines(alloc, run, lines)?;
    let head = run.head();
    let mut out = String::new(alloc);
    if head.columns > 0 {
        put_rounds(&mut out, alloc, run, &past)?;
    }
    put_picture(&mut out, alloc, &head.key_names, &past)?;
    Ok(out)
}

/// The report of a run whose outcomes these lines are; after each of its rounds the watermark, and how many keys the picture up
/// to it has; and the picture at the last mark, which is that of all commits.
pub fn follow_text(alloc: Global, run: &Run, lines: &[AttemptLine]) -> Result<Vec<u8>, NoMemory>
    requires legal { IsLegal run.now }
    requires lines { lines.now ≡ outcomes_of run.now }
    ensures { IfOk result (λ text. text.items ≡ spec.follow_text run.now) }
{
    let mut text = report_text(alloc, run, lines)?;
    let followed = followed(alloc, run, lines)?;
    text.extend_from_slice(followed.as_bytes())?;
    Ok(text)
}
