//! What is told and asked of legal runs.
ghost use Rattle.std.specs.Prelude.{◌≡◌, IfOk};
ghost use Rattle.mk_history.specs.Legality.{IsLegal};
ghost use Rattle.mk_run.specs.Attempts.{outcomes_of};

use crate::word::LegalWord;
use mk_past::Past;
use mk_report::report_text;
use mk_run::{AttemptLine, Run, Verdict, check, outcomes};
use mk_trace::read_trace;
use mk_txn::{NoMemory, Stamp};
use std::alloc::Global;

/// How many questions are asked.
const QUESTIONS: u32 = 100_000;

/// The bytes copied, and the stamps of the attempts sorted.
fn copy(alloc: Global, text: &[u8], lines: &[AttemptLine]) -> Result<usize, NoMemory> {
    let mut stamps = Vec::new(alloc);
    for line in lines {
        stamps.push(line.stamp)?;
    }
    stamps.sort()?;
    Ok(Vec::from_slice(alloc, text)?.len())
}

/// How many of the questions find a version that some commit left.
fn ask(past: &Past) -> usize {
    let mut found: usize = 0;
    for n in 0..QUESTIONS {
        let stamp = Stamp {
            time: 41 * u64::from(n),
            client: n % 64 + 1,
        };
        let (version, _value) = past.at(n % 256, stamp);
        if version.client > 0 {
            found = found.saturating_add(1);
        }
    }
    found
}

/// The index of the run's past is built from its outcomes.
fn index(alloc: Global, run: &Run, lines: &[AttemptLine]) -> Result<usize, NoMemory>
    requires legal { IsLegal run.now }
    requires lines { lines.now ≡ outcomes_of run.now }
{
    let _past = Past::of_lines(alloc, run, lines)?;
    Ok(lines.len())
}

/// What is told of a run.
#[derive(Drop)]
struct Told {
    lines: Vec<AttemptLine>,
    text: Vec<u8>,
    past: Past,
}

fn tell(alloc: Global, run: &Run) -> Result<Told, NoMemory>
    requires { IsLegal run.now }
    ensures { IfOk result (λ told. told.lines.items ≡ outcomes_of run.now) }
{
    let lines = outcomes(alloc, run)?;
    let text = report_text(alloc, run, lines.as_slice())?;
    let past = Past::of_lines(alloc, run, lines.as_slice())?;
    Ok(Told { lines, text, past })
}

fn once(alloc: Global, word: LegalWord, run: &Run, told: &Told) -> Result<usize, NoMemory>
    requires legal { IsLegal run.now }
    requires lines { told.now.lines.items ≡ outcomes_of run.now }
{
    let count = match word {
        LegalWord::Outcomes => outcomes(alloc, run)?.len(),
        LegalWord::Report => report_text(alloc, run, told.lines.as_slice())?.len(),
        LegalWord::Copy => copy(alloc, told.text.as_slice(), told.lines.as_slice())?,
        LegalWord::Index => index(alloc, run, told.lines.as_slice())?,
        LegalWord::Ask => ask(&told.past),
    };
    Ok(count)
}

/// Does so many times to the run what the word says, of which it tells all once more at first.
fn repeat_legal(alloc: Global, word: LegalWord, times: u32, run: &Run) -> Result<usize, NoMemory>
    requires { IsLegal run.now }
{
    let told = tell(alloc, run)?;
    let mut count = 0;
    for _ in 0..times {
        count = once(alloc, word, run, &told)?;
    }
    Ok(count)
}

/// Does so many times to the run of the trace what the word says. None if it is not legal.
pub fn repeat(alloc: Global, word: LegalWord, times: u32, bytes: &[u8]) -> Option<usize> {
    let run = read_trace(alloc, bytes).ok()?;
    match check(alloc, &run).ok()? {
        Verdict::Legal => repeat_legal(alloc, word, times, &run).ok(),
        Verdict::Broken { .. } => None,
    }
}
