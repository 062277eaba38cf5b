//! A trace that is judged while it is read: of its rounds none is kept.
ghost use Rattle.std.specs.Prelude.{◌≡◌, ◌≢◌, ◌≤◌, ◌+◌, ◌++◌, ◌∷◌, [], ℕ, None, Some, Ok, Err, List, length, IfOk, OnOk, IfErr};
ghost use Rattle.std.specs.Io.KnownBytes.{Consumes};
ghost use Rattle.mk_history.specs.declared.RoundLog.{RoundLog as Round};
ghost use Rattle.mk_history.specs.Shape.{HasShape};
ghost use Rattle.mk_kept.specs.Heads.{history};
ghost use Rattle.std.specs.String.{string_bytes};
ghost use Rattle.mk_io.specs.Faults.{HasRisen};
ghost use Rattle.mk_io.specs.Wholes.{TakesAll, TakesCount, TakesAtMost};
ghost use Rattle.mk_tool.specs.Checked.{trace_limit, IsRefused};
ghost use Rattle.mk_tool.specs.Streams.{IsJudgement, JudgedSo, IsJudged, IsAllJudged};

use crate::judging::{Judgement, said};
use mk_ending::Why;
use mk_io::{ReadError, Source};
use mk_kept::{Head, RoundLog};
use mk_run::Judge;
use mk_trace::{TraceError, TraceReader};
use mk_txn::NoMemory;
use std::alloc::Global;

/// The reader of a trace, and the judge of the rounds that were read to their end, who comes with the first.
#[derive(Drop)]
pub struct Stream {
    alloc: Global,
    pub reader: TraceReader,
    pub judge: Option<Judge>,
}

/// The bytes of a trace at the most.
pub const TRACE_LIMIT: usize = 67_108_864;

/// How many bytes a turn asks for at most.
const CHUNK: usize = 65_536;

/// Shows the judge the next round of the runs with this head.
fn show(
    alloc: Global,
    judge: &mut Option<Judge>,
    head: &Head,
    round: &RoundLog,
) -> Result<(), NoMemory>
    requires { (rounds : List Round) × JudgedSo judge.old (Some head.now) rounds × HasShape (history head.now (rounds ++ round.now ∷ [])) }
    ensures { OnOk result ((rounds : List Round) → JudgedSo judge.old (Some head.now) rounds → HasShape (history head.now (rounds ++ round.now ∷ [])) →
        JudgedSo judge.new (Some head.now) (rounds ++ round.now ∷ [])) }
{
    match judge {
        Some(judge) => judge.take_round(round),
        None => {
            let mut first = Judge::new(alloc, head.copy()?)?;
            first.take_round(round)?;
            *judge = Some(first);
            Ok(())
        }
    }
}

impl Stream {
    /// No byte was read.
    pub fn new(alloc: Global) -> Stream
        ensures { IsAllJudged result.reader result.judge [] }
    {
        Stream {
            alloc,
            reader: TraceReader::new(alloc),
            judge: None,
        }
    }

    /// Judges the rounds that were read to their end.
    fn judge_rounds(&mut self) -> Result<(), NoMemory>
        requires { (text : List ℕ) × (rounds : List Round) × IsJudged self.old.reader self.old.judge text rounds }
        ensures { OnOk result ((text : List ℕ) (rounds : List Round) → IsJudged self.old.reader self.old.judge text rounds → IsAllJudged self.new.reader self.new.judge text) }
    {
        mk_trace::rounds_so_far_are_a_run();
        while let Some(round) = self.reader.take_round() {
            let head = self.reader.head().unwrap();
            show(self.alloc, &mut self.judge, head, &round)?;
        }
        Ok(())
    }

    /// Reads the next piece, and judges the rounds that end in it.
    pub fn take(&mut self, piece: &[u8]) -> Result<(), NoMemory>
        requires { (text : List ℕ) × IsAllJudged self.old.reader self.old.judge text }
        ensures { OnOk result ((text : List ℕ) → IsAllJudged self.old.reader self.old.judge text → IsAllJudged self.new.reader self.new.judge (text ++ piece.now)) }
    {
        mk_trace::a_piece_follows_the_text();
        mk_trace::the_head_stays();
        self.reader.feed(piece)?;
        self.judge_rounds()
    }

    /// What the trace is judged, where the text may end here.
    pub fn judgement(&mut self) -> Result<Judgement, Why>
        requires { (text : List ℕ) × IsAllJudged self.old.reader self.old.judge text }
        ensures ok { IfOk result (λ j. (text : List ℕ) → IsAllJudged self.old.reader self.old.judge text → IsJudgement text j.verdict (string_bytes j.text)) }
        ensures err { IfErr result (λ why. (text : List ℕ) → IsAllJudged self.old.reader self.old.judge text → IsRefused text why) }
    {
        mk_trace::a_reader_answers_the_text();
        mk_trace::read_rounds_are_a_run();
        mk_trace::rounds_so_far_are_a_run();
        match self.reader.finish() {
            Ok(()) => {}
            Err(TraceError::BadLine { line, why }) => return Err(Why::Refused { line, why }),
            Err(TraceError::NoMemory) => return Err(Why::NoMemory),
        }
        let head = self.reader.head().unwrap();
        let judge = self.judge.as_ref().unwrap();
        Ok(said(self.alloc, head, judge)?)
    }

    /// Reads a source that has at most TRACE_LIMIT bytes to its end, and judges on the way. It takes at most one byte more.
    pub fn read<S: Source>(&mut self, source: &mut S) -> Result<(), ReadError>
        requires { IsAllJudged self.old.reader self.old.judge [] }
        ensures whole { OnOk result ((text : List ℕ) × TakesAll (S.left source.old) (S.left source.new) text × (length text ≤ trace_limit) × IsAllJudged self.new.reader self.new.judge text) }
        ensures too_long { result ≡ Err ReadError.TooLong → TakesCount (S.left source.old) (S.left source.new) (trace_limit + 1) }
        ensures not_too_long { result ≢ Err ReadError.TooLong → TakesAtMost (S.left source.old) (S.left source.new) trace_limit }
        ensures fault { result ≡ Err ReadError.Fault → HasRisen (S.faults source.old) (S.faults source.new) }
    {
        let mut buf = [0; CHUNK];
        let mut taken = 0;
        loop {
            // One byte more than there is room for shows that the source has more.
            let room = TRACE_LIMIT - taken;
            let size = if room < CHUNK { room + 1 } else { CHUNK };
            let count = source.read(&mut buf[..size])?;
            if count == 0 {
                return Ok(());
            }
            if count > room {
                return Err(ReadError::TooLong);
            }
            match self.take(&buf[..count]) {
                Ok(()) => taken += count,
                Err(NoMemory) => return Err(ReadError::NoMemory),
            }
        }
    }
}
