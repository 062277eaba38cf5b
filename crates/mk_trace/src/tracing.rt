//! A run from its trace, which may come in pieces.
ghost use Rattle.std.specs.Prelude.{◌≡◌, [], true, Some, Ok, IfSome, IfOk};
ghost use Rattle.mk_history.specs.Histories.{History};
ghost use Rattle.mk_history.specs.Shape.{HasShape};
ghost use Rattle.mk_spelling.specs.Lines.{next_number};
ghost use Rattle.mk_trace.specs.Pieces as spec;
ghost use Rattle.mk_trace_text.specs.Traces.{trace_text};
ghost use Rattle.mk_trace.specs.Answers.{Fed, HeadIs, Takes, Finishes, Told, Leaves, is_reading, held_behind, ended_behind, Answers, run_text};

use crate::error::{LineError, TraceError};
use crate::reader::Reader;
use mk_history::RoundLog;
use mk_kept::{Head, Run};
use mk_text::{TextFault, cut};
use mk_txn::NoMemory;
use std::alloc::Global;
use std::marker::Model;

/// How reading stands.
#[derive(Clone, Copy)]
enum Standing {
    /// No line was faulty so far.
    Reading,
    /// The first faulty line, and its first fault.
    Refused { line: u64, why: TextFault },
    /// Memory ran out.
    NoMemory,
}

/// Reads a trace in pieces. It keeps the line that goes on, the round that goes on, and the rounds that were not taken.
#[derive(Drop)]
pub struct TraceReader {
    alloc: Global,
    standing: Standing,
    number: u64,
    held: Vec<u8>,
    reader: Reader,
}

impl Model for TraceReader {
    ghost use Rattle.std.specs.Prelude.{Option};
    ghost use Rattle.mk_trace.specs.Pieces.{Reading};
    ghost use Rattle.mk_trace.specs.Answers.{reading_of};

    ghost Value = { Option Reading };

    ghost view = { λ a. reading_of a.standing a.number a.held.items a.reader };
}

/// The number of the line behind this one.
fn next_line(number: u64) -> u64
    ensures { result ≡ next_number number }
{
    if number < u64::MAX {
        number + 1
    } else {
        number
    }
}

impl TraceReader {
    /// No byte was read yet.
    pub fn new(alloc: Global) -> TraceReader
        ensures { result ≡ Some spec.started }
    {
        TraceReader {
            alloc,
            standing: Standing::Reading,
            number: 1,
            held: Vec::new(alloc),
            reader: Reader::new(alloc),
        }
    }

    /// Reads the next piece of the text. After a NoMemory each call answers NoMemory.
    pub fn feed(&mut self, piece: &[u8]) -> Result<(), NoMemory>
        ensures { Fed result self.old piece.now self.new }
    {
        let mut left = piece;
        'lines: while let Some((front, rest)) = cut(b'\n', left) {
            if !self.is_reading() {
                return self.fed();
            }
            self.end_line(front)?;
            left = rest;
        }
        if !self.is_reading() {
            return self.fed();
        }
        self.hold(left)
    }

    fn is_reading(&self) -> bool
        ensures { result ≡ is_reading self.now }
    {
        matches!(self.standing, Standing::Reading)
    }

    /// What a piece is answered as reading stands.
    fn fed(&self) -> Result<(), NoMemory>
        ensures { Told result self.now }
    {
        match self.standing {
            Standing::NoMemory => Err(NoMemory),
            _ => Ok(()),
        }
    }

    /// Holds the bytes of a line that goes on.
    fn hold(&mut self, bytes: &[u8]) -> Result<(), NoMemory>
        ensures { Leaves result self.new (held_behind self.old bytes.now) }
    {
        if self.held.extend_from_slice(bytes).is_err() {
            self.standing = Standing::NoMemory;
            return Err(NoMemory);
        }
        Ok(())
    }

    /// Takes the line that these bytes end.
    fn end_line(&mut self, front: &[u8]) -> Result<(), NoMemory>
        requires reading { is_reading self.old ≡ true }
        ensures { Leaves result self.new (ended_behind self.old front.now) }
    {
        if self.held.is_empty() {
            return self.line(front);
        }
        self.hold(front)?;
        let held = std::mem::replace(&mut self.held, Vec::new(self.alloc));
        self.line(held.as_slice())
    }

    /// Takes a whole line, where none is held.
    fn line(&mut self, line: &[u8]) -> Result<(), NoMemory>
        requires reading { is_reading self.old ≡ true }
        requires whole { IfSome self.old (λ r. r.held ≡ []) }
        ensures { Leaves result self.new (ended_behind self.old line.now) }
    {
        let number = self.number;
        self.number = next_line(number);
        match self.reader.line(line) {
            Ok(()) => Ok(()),
            Err(LineError::Fault(why)) => {
                self.standing = Standing::Refused { line: number, why };
                Ok(())
            }
            Err(LineError::Memory) => {
                self.standing = Standing::NoMemory;
                Err(NoMemory)
            }
        }
    }

    /// The head; None until the line `round 1` was read.
    pub fn head(&self) -> Option<&Head>
        ensures { HeadIs result self.now }
    {
        self.reader.head()
    }

    /// The first round that was read to its end and not taken yet.
    pub fn take_round(&mut self) -> Option<RoundLog>
        ensures { Takes result self.old self.new }
    {
        self.reader.take_round()
    }

    /// Whether the text may end here; else its first faulty line.
    pub fn finish(&mut self) -> Result<(), TraceError>
        ensures answer { Finishes result self.old }
        ensures same { self.new ≡ self.old }
    {
        match self.standing {
            Standing::NoMemory => Err(TraceError::NoMemory),
            Standing::Refused { line, why } => Err(TraceError::BadLine { line, why }),
            Standing::Reading => {
                let line = self.number;
                if !self.held.is_empty() {
                    let why = TextFault::Cut;
                    return Err(TraceError::BadLine { line, why });
                }
                if !self.reader.may_end() {
                    let why = TextFault::Order;
                    return Err(TraceError::BadLine { line, why });
                }
                Ok(())
            }
        }
    }
}

/// The run that the bytes are the trace of; else the first faulty line and its first fault.
pub fn read_trace(alloc: Global, bytes: &[u8]) -> Result<Run, TraceError>
    // What is read is the trace of the run.
    ensures found { IfOk result (λ run. bytes.now ≡ trace_text run) }
    // The trace of a run is read, unless memory runs out.
    ensures only { (run : History) → HasShape run → bytes.now ≡ trace_text run → Answers result (Ok run) }
    // Which line is refused, and why.
    ensures exact { Answers result (run_text bytes.now) }
{
    read_text(alloc, bytes)
}

fn read_text(alloc: Global, bytes: &[u8]) -> Result<Run, TraceError>
    ensures exact { Answers result (run_text bytes.now) }
{
    let mut reader = TraceReader::new(alloc);
    reader.feed(bytes)?;
    reader.finish()?;
    Ok(reader.reader.run())
}
