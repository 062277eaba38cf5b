//! The text of a verdict.
ghost use Rattle.std.specs.Prelude.{◌≡◌, ◌++◌, OnOk};
ghost use Rattle.std.specs.String.{string_bytes};
ghost use Rattle.mk_tool.specs.VerdictTexts as spec;

use mk_names::Names;
use mk_run::{Flaw, Place, Tally};
use mk_trace_lines::key_name;
use std::alloc::AllocError;

fn flaw_word(why: Flaw) -> &'static str
    ensures { result.now ≡ spec.flaw_text why }
{
    match why {
        Flaw::Disabled => "disabled",
        Flaw::Unfinished => "unfinished",
        Flaw::Answer => "answer",
        Flaw::Unmatched => "unmatched",
    }
}

fn put_cell(out: &mut String, replica: u32, key: &str, entry: u64) -> Result<(), AllocError>
    ensures { OnOk result (string_bytes out.new ≡ string_bytes out.old ++ spec.cell_text replica key.now entry) }
{
    write!(out, "cell {replica} {key} {entry}")
}

fn put_match(
    out: &mut String,
    replica: u32,
    key: &str,
    column: u32,
    entry: u64,
) -> Result<(), AllocError>
    ensures { OnOk result (string_bytes out.new ≡ string_bytes out.old ++ spec.match_text replica key.now column entry) }
{
    write!(out, "match {replica} {key} {column} {entry}")
}

fn put_place(out: &mut String, keys: &Names, place: Place) -> Result<(), AllocError>
    ensures { OnOk result (string_bytes out.new ≡ string_bytes out.old ++ spec.place_text keys.now.names place) }
{
    match place {
        Place::Column { column, entry } => write!(out, "column {column} {entry}"),
        Place::Cell {
            replica,
            key,
            entry,
        } => put_cell(out, replica, key_name(keys, key), entry),
        Place::Match {
            replica,
            key,
            column,
            entry,
        } => put_match(out, replica, key_name(keys, key), column, entry),
        Place::Global { entry } => write!(out, "global {entry}"),
    }
}

/// Writes the line of a legal run, whose attempts ended so.
pub fn put_legal(out: &mut String, tally: Tally) -> Result<(), AllocError>
    ensures { OnOk result (string_bytes out.new ≡ string_bytes out.old ++ spec.legal_text tally) }
{
    let commits = tally.commits;
    let aborts = tally.aborts;
    let opens = tally.opens;
    writeln!(out, "legal {commits} {aborts} {opens}")
}

/// Writes the line of a run with this flaw.
pub fn put_broken(
    out: &mut String,
    keys: &Names,
    round: u32,
    place: Place,
    why: Flaw,
) -> Result<(), AllocError>
    ensures { OnOk result (string_bytes out.new ≡ string_bytes out.old ++ spec.broken_text keys.now.names round place why) }
{
    let why = flaw_word(why);
    write!(out, "broken {round} ")?;
    put_place(out, keys, place)?;
    writeln!(out, " {why}")
}
