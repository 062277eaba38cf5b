//! Calls over scripts, sinks and epoch words in memory.
ghost use Rattle.std.specs.Prelude.{◌≡◌, ◌<◌};

use mk_io::{EpochWord, Failed, MemSink, MemSource};
use mk_lock::{Gate, NoGate};
use mk_proc::{Proc, ProcKind, Procs, add, max, sum};
use mk_top::run_top;
use std::alloc::Global;
use std::sync::Wait;
use std::test::Fail;
use std::thread::Threads;

/// Which call fails: a read of the source, a write to the sink, a set of the word of this replica. They are counted from 1; at
/// 0 none fails.
#[derive(Clone, Copy)]
pub struct Faults {
    pub read: u32,
    pub write: u32,
    pub replica: u32,
    pub set: u32,
}

/// No call fails.
pub const NONE: Faults = Faults {
    read: 0,
    write: 0,
    replica: 0,
    set: 0,
};

/// A word in memory, of which one set fails.
#[derive(Clone, Copy)]
struct FailingWord {
    kept: u32,
    // how many sets there are up to the one that fails, and 0 after it
    until_fault: u32,
    faults: u64,
}

impl FailingWord {
    fn new(replica: u32, faults: Faults) -> FailingWord
        ensures { result.kept ≡ 0 }
    {
        let until_fault = if replica == faults.replica {
            faults.set
        } else {
            0
        };
        FailingWord {
            kept: 0,
            until_fault,
            faults: 0,
        }
    }
}

impl EpochWord for FailingWord {
    ghost faults = { λ word. word.faults };

    ghost kept = { λ word. word.kept };

    fn get(&self) -> u32 {
        self.kept
    }

    fn set(&mut self, value: u32) -> Result<(), Failed> {
        let until_fault = self.until_fault;
        self.until_fault = until_fault.saturating_sub(1);
        if until_fault == 1 {
            self.faults = self.faults.saturating_add(1);
            return Err(Failed);
        }
        self.kept = value;
        Ok(())
    }
}

/// The status of a call, and whether it gave a run.
#[derive(Clone, Copy)]
struct Ended {
    status: u8,
    has_run: bool,
}

// No clause says how the call ended: the tests look.
fn call<G: Gate + Sync, R: Threads + Wait + Sync>(
    rt: &R,
    alloc: Global,
    words: &[String],
    source: &mut MemSource,
    sink: &mut MemSink,
    faults: Faults,
    gate: &G,
) -> Ended {
    let procs = Procs::new(
        Proc::new(ProcKind::Add, add),
        Proc::new(ProcKind::Sum, sum),
        Proc::new(ProcKind::Max, max),
    );
    let mut epoch_words = [
        FailingWord::new(0, faults),
        FailingWord::new(1, faults),
        FailingWord::new(2, faults),
        FailingWord::new(3, faults),
        FailingWord::new(4, faults),
        FailingWord::new(5, faults),
        FailingWord::new(6, faults),
    ];
    let done = run_top(
        rt,
        alloc,
        words,
        source,
        sink,
        &mut epoch_words,
        &procs,
        gate,
    );
    Ended {
        status: done.status,
        has_run: done.run.is_some(),
    }
}

// The words of a call.
fn words_of(alloc: Global, text: &str) -> Result<Vec<String>, Fail> {
    let mut words = Vec::new(alloc);
    for word in text.split(' ') {
        if !word.is_empty() {
            words.push(String::from_str(alloc, word)?)?;
        }
    }
    Ok(words)
}

// Only these statuses come with a run.
fn comes_with_run(status: u8) -> bool {
    matches!(status, 0 | 5 | 6)
}

// How many bytes a call of the source gives: few of a short script.
fn piece_of(script: &[u8]) -> u32
    ensures { 0 < result }
{
    if script.len() < 4_096 { 7 } else { 4_096 }
}

/// Whether a call through this gate ends with this status, and has written this text. The source gives 7 bytes a call of a
/// script of less than 4,096 bytes, and the sink takes 5.
pub fn passes_as<G: Gate + Sync, R: Threads + Wait + Sync>(
    rt: &R,
    alloc: Global,
    words: &str,
    script: &[u8],
    faults: Faults,
    gate: &G,
    status: u8,
    text: &[u8],
) -> Result<bool, Fail> {
    let words = words_of(alloc, words)?;
    let mut source = MemSource::new(alloc, script, piece_of(script), &[faults.read])?;
    let mut sink = MemSink::new(alloc, 5, &[faults.write])?;
    let ended = call(
        rt,
        alloc,
        words.as_slice(),
        &mut source,
        &mut sink,
        faults,
        gate,
    );
    Ok(ended.status == status && ended.has_run == comes_with_run(status) && sink.bytes() == text)
}

/// The same where no gate holds anybody.
pub fn ends_as<R: Threads + Wait + Sync>(
    rt: &R,
    alloc: Global,
    words: &str,
    script: &[u8],
    faults: Faults,
    status: u8,
    text: &[u8],
) -> Result<bool, Fail> {
    passes_as(rt, alloc, words, script, faults, &NoGate, status, text)
}
