//! Whole reports and summaries.
ghost use Rattle.std.specs.Prelude.{◌≡◌, ◌++◌, OnOk, count_by};
ghost use Rattle.std.specs.List.{flat_map};
ghost use Rattle.std.specs.String.{string_bytes};
ghost use Rattle.mk_report.specs.ReportTexts.{attempt_text, global_text};
ghost use Rattle.mk_run.specs.Attempts.{is_committed as spec_committed, is_aborted as spec_aborted, is_open as spec_open, tally_of};
ghost use Rattle.mk_report.specs.WholeReports as spec;

use crate::lines::{put_attempt, put_end, put_global};
use crate::stores::{put_stores, put_sum};
use mk_history::{RoundLog, State};
use mk_names::Names;
use mk_replay::OneCopy;
use mk_run::{AttemptLine, Tally};
use mk_txn::{NoMemory, Outcome};
use mk_words::GlobalEntry;
use std::alloc::{AllocError, Global};

fn put_attempts(
    out: &mut String,
    clients: &Names,
    keys: &Names,
    lines: &[AttemptLine],
) -> Result<(), AllocError>
    ensures { OnOk result (string_bytes out.new ≡ string_bytes out.old ++ flat_map (attempt_text clients.now.names keys.now.names) lines.now) }
{
    'each: for line in lines {
        put_attempt(out, clients, keys, line)?;
    }
    Ok(())
}

fn put_globals(out: &mut String, entries: &[GlobalEntry]) -> Result<(), AllocError>
    ensures { OnOk result (string_bytes out.new ≡ string_bytes out.old ++ flat_map global_text entries.now) }
{
    'each: for entry in entries {
        put_global(out, *entry)?;
    }
    Ok(())
}

fn put_rounds(out: &mut String, rounds: &[RoundLog]) -> Result<(), AllocError>
    ensures { OnOk result (string_bytes out.new ≡ string_bytes out.old ++ flat_map spec.round_text rounds.now) }
{
    'each: for round in rounds {
        put_globals(out, round.globals.as_slice())?;
    }
    Ok(())
}

pub(crate) fn is_committed(state: State) -> bool
    ensures { result ≡ spec_committed state }
{
    match state {
        State::Learned { outcome, path: _ } => matches!(outcome, Outcome::Commit),
        State::Left(_) => false,
    }
}

fn is_aborted(state: State) -> bool
    ensures { result ≡ spec_aborted state }
{
    match state {
        State::Learned { outcome, path: _ } => matches!(outcome, Outcome::Abort(_)),
        State::Left(_) => false,
    }
}

fn is_open(state: State) -> bool
    ensures { result ≡ spec_open state }
{
    matches!(state, State::Left(_))
}

fn count_commits(lines: &[AttemptLine]) -> usize
    ensures { result ≡ count_by (λ line. spec_committed line.state) lines.now }
{
    lines.iter().filter(|a| is_committed(a.state)).count()
}

fn count_aborts(lines: &[AttemptLine]) -> usize
    ensures { result ≡ count_by (λ line. spec_aborted line.state) lines.now }
{
    lines.iter().filter(|a| is_aborted(a.state)).count()
}

fn count_opens(lines: &[AttemptLine]) -> usize
    ensures { result ≡ count_by (λ line. spec_open line.state) lines.now }
{
    lines.iter().filter(|a| is_open(a.state)).count()
}

pub(crate) fn tally(lines: &[AttemptLine]) -> Tally
    ensures { result ≡ tally_of lines.now }
{
    let commits = count_commits(lines);
    let aborts = count_aborts(lines);
    let opens = count_opens(lines);
    Tally {
        commits: commits as u64,
        aborts: aborts as u64,
        opens: opens as u64,
    }
}

fn put_tally(out: &mut String, lines: &[AttemptLine]) -> Result<(), AllocError>
    ensures { OnOk result (string_bytes out.new ≡ string_bytes out.old ++ spec.tally_text lines.now) }
{
    let counted = tally(lines);
    put_end(out, counted.commits, counted.aborts, counted.opens)
}

/// Writes the report of these lines of attempts, rounds and one copy.
pub fn put_report(
    out: &mut String,
    alloc: Global,
    clients: &Names,
    keys: &Names,
    lines: &[AttemptLine],
    rounds: &[RoundLog],
    copy: &OneCopy,
) -> Result<(), NoMemory>
    ensures { OnOk result (string_bytes out.new ≡ string_bytes out.old ++ spec.report_text clients.now.names keys.now.names lines.now rounds.now copy.now) }
{
    put_attempts(out, clients, keys, lines)?;
    put_rounds(out, rounds)?;
    put_stores(out, alloc, keys, copy)?;
    put_tally(out, lines)?;
    Ok(())
}

/// Writes the summary of these lines of attempts and one copy.
pub fn put_summary(
    out: &mut String,
    alloc: Global,
    keys: &Names,
    lines: &[AttemptLine],
    copy: &OneCopy,
) -> Result<(), NoMemory>
    ensures { OnOk result (string_bytes out.new ≡ string_bytes out.old ++ spec.summary_text keys.now.names lines.now copy.now) }
{
    put_tally(out, lines)?;
    put_sum(out, alloc, keys, copy)
}
