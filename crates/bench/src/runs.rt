//! Runs that are judged and written.
use crate::columns::columns_of;
use crate::word::RunWord;
use mk_column::{Column, ColumnError};
use mk_kept::Run;
use mk_run::check;
use mk_trace::{read_trace, write_trace};
use mk_words::Step;
use std::alloc::Global;

/// The column does these steps.
fn step_all(column: &mut Column, steps: &[Step]) -> Result<usize, ColumnError> {
    for step in steps {
        column.step(step.copy()?)?;
    }
    Ok(steps.len())
}

/// How many steps the columns of the run do in its first round.
fn step(alloc: Global, run: &Run) -> Option<usize> {
    let round = run.rounds().first()?;
    let mut count: usize = 0;
    let mut columns = columns_of(alloc, run.head()).ok()?;
    for (column, log) in columns.iter_mut().zip(round.logs.as_slice()) {
        count = count.saturating_add(step_all(column, log).ok()?);
    }
    Some(count)
}

fn once(alloc: Global, word: RunWord, run: &Run) -> Option<usize> {
    match word {
        RunWord::Step => step(alloc, run),
        RunWord::Judge => {
            let _verdict = check(alloc, run).ok()?;
            Some(run.rounds().len())
        }
        RunWord::Write => Some(write_trace(alloc, run).ok()?.len()),
    }
}

/// Does so many times to the run of the trace what the word says.
pub fn repeat(alloc: Global, word: RunWord, times: u32, bytes: &[u8]) -> Option<usize> {
    let run = read_trace(alloc, bytes).ok()?;
    let mut count = 0;
    for _ in 0..times {
        count = once(alloc, word, &run)?;
    }
    Some(count)
}
