//! What is told of the run of the trace that a source holds.
ghost use Rattle.std.specs.Prelude.{◌≡◌, ◌≢◌, ◌≤◌, ◌+◌, ℕ, List, [], Ok, Err, length, IfOk, OnOk, IfErr};
ghost use Rattle.std.specs.String.{string_bytes};
ghost use Rattle.mk_spelling.specs.declared.fault.TextFault.{TextFault as Fault};
ghost use Rattle.mk_io.specs.Faults.{HasRisen};
ghost use Rattle.mk_io.specs.Wholes.{TakesAll, TakesCount, TakesAtMost};
ghost use Rattle.mk_ending.specs.Endings.{IsUnread};
ghost use Rattle.mk_history.specs.Histories.{History};
ghost use Rattle.mk_history.specs.Shape.{HasShape};
ghost use Rattle.mk_trace.specs.Answers.{run_text};
ghost use Rattle.mk_tool.specs.Asking.Asked.{ForVerdict};
ghost use Rattle.mk_tool.specs.Checked.{trace_limit, IsAnswer, IsLacking, IsRefused, IsTold, IsUnanswered, TellsFault};
ghost use Rattle.mk_tool.specs.Seen.{seen_form, seen_question};
ghost use Rattle.mk_tool.specs.Streams.{IsAllJudged};

use crate::answering::answer;
use crate::asking::{Form, Question};
use crate::judging::Judgement;
use crate::stream::{Stream, TRACE_LIMIT};
use mk_ending::Why;
use mk_io::{Source, read_whole};
use mk_run::Run;
use mk_trace::{TraceError, read_trace};
use std::alloc::Global;

/// Reads the source to its end, and judges on the way.
fn read_into<S: Source>(stream: &mut Stream, source: &mut S) -> Result<(), Why>
    requires { IsAllJudged stream.old.reader stream.old.judge [] }
    ensures whole { OnOk result ((text : List ℕ) × TakesAll (S.left source.old) (S.left source.new) text × (length text ≤ trace_limit) × IsAllJudged stream.new.reader stream.new.judge text) }
    ensures err { IfErr result IsUnread }
    ensures too_long { result ≡ Err Why.TooLong → TakesCount (S.left source.old) (S.left source.new) (trace_limit + 1) }
    ensures not_too_long { result ≢ Err Why.TooLong → TakesAtMost (S.left source.old) (S.left source.new) trace_limit }
    ensures fault { result ≡ Err Why.SourceFault → HasRisen (S.faults source.old) (S.faults source.new) }
{
    Ok(stream.read(source)?)
}

/// The verdict on the run of the trace that the source holds, and its text.
fn verdict_from<S: Source>(alloc: Global, source: &mut S) -> Result<Judgement, Why>
    ensures ok { IfOk result (λ j. IsAnswer ForVerdict (S.left source.old) j.verdict (string_bytes j.text)) }
    ensures refused { (line : ℕ) (why : Fault) → result ≡ Err (Why.Refused line why) → TellsFault (S.left source.old) line why }
    ensures too_long { result ≡ Err Why.TooLong → TakesCount (S.left source.old) (S.left source.new) (trace_limit + 1) }
    ensures not_too_long { result ≢ Err Why.TooLong → TakesAtMost (S.left source.old) (S.left source.new) trace_limit }
    ensures fault { result ≡ Err Why.SourceFault → HasRisen (S.faults source.old) (S.faults source.new) }
    ensures no_usage { result ≢ Err Why.Usage }
    ensures no_sink { result ≢ Err Why.SinkFault }
    ensures no_attempt { result ≢ Err Why.NoAttempt }
{
    let mut stream = Stream::new(alloc);
    read_into(&mut stream, source)?;
    stream.judgement()
}

/// The bytes that the source holds, which may be a trace.
fn bytes_from<S: Source>(alloc: Global, source: &mut S) -> Result<Vec<u8>, Why>
    ensures whole { IfOk result (λ bytes. TakesAll (S.left source.old) (S.left source.new) bytes.items × (length bytes.items ≤ trace_limit)) }
    ensures err { IfErr result IsUnread }
    ensures too_long { result ≡ Err Why.TooLong → TakesCount (S.left source.old) (S.left source.new) (trace_limit + 1) }
    ensures not_too_long { result ≢ Err Why.TooLong → TakesAtMost (S.left source.old) (S.left source.new) trace_limit }
    ensures fault { result ≡ Err Why.SourceFault → HasRisen (S.faults source.old) (S.faults source.new) }
{
    Ok(read_whole(alloc, source, TRACE_LIMIT)?)
}

/// The run that the bytes are the trace of.
fn run_of(alloc: Global, bytes: &[u8]) -> Result<Run, Why>
    ensures ok { IfOk result (λ run. run_text bytes.now ≡ Ok run) }
    ensures err { IfErr result (IsRefused bytes.now) }
{
    match read_trace(alloc, bytes) {
        Ok(run) => Ok(run),
        Err(TraceError::BadLine { line, why }) => Err(Why::Refused { line, why }),
        Err(TraceError::NoMemory) => Err(Why::NoMemory),
    }
}

/// What is told of the run of the bytes that is asked this.
fn answer_of(alloc: Global, bytes: &[u8], question: Question<'_>) -> Result<Judgement, Why>
    ensures told { IfOk result (λ j. (run : History) × HasShape run × (run_text bytes.now ≡ Ok run) × IsTold (seen_question question.entry) run j.verdict (string_bytes j.text)) }
    ensures err { IfErr result (IsUnanswered (seen_question question.entry) bytes.now) }
{
    let run = run_of(alloc, bytes)?;
    run.has_shape();
    answer(alloc, &run, question)
}

/// What is told of the run of the trace that the source holds, which is asked this. The run is kept whole.
fn answer_from<S: Source>(
    alloc: Global,
    source: &mut S,
    question: Question<'_>,
) -> Result<Judgement, Why>
    ensures ok { IfOk result (λ j. IsAnswer (seen_question question.entry) (S.left source.old) j.verdict (string_bytes j.text)) }
    ensures refused { (line : ℕ) (why : Fault) → result ≡ Err (Why.Refused line why) → TellsFault (S.left source.old) line why }
    ensures too_long { result ≡ Err Why.TooLong → TakesCount (S.left source.old) (S.left source.new) (trace_limit + 1) }
    ensures not_too_long { result ≢ Err Why.TooLong → TakesAtMost (S.left source.old) (S.left source.new) trace_limit }
    ensures fault { result ≡ Err Why.SourceFault → HasRisen (S.faults source.old) (S.faults source.new) }
    ensures no_usage { result ≢ Err Why.Usage }
    ensures no_sink { result ≢ Err Why.SinkFault }
    ensures no_attempt { result ≡ Err Why.NoAttempt → IsLacking (seen_question question.entry) (S.left source.old) }
{
    let bytes = bytes_from(alloc, source)?;
    answer_of(alloc, bytes.as_slice(), question)
}

/// What is told of the run of the trace that the source holds, where the words have this form.
pub fn judgement_from<S: Source>(
    alloc: Global,
    source: &mut S,
    form: Form<'_>,
) -> Result<Judgement, Why>
    ensures ok { IfOk result (λ j. IsAnswer (seen_form form.entry) (S.left source.old) j.verdict (string_bytes j.text)) }
    ensures refused { (line : ℕ) (why : Fault) → result ≡ Err (Why.Refused line why) → TellsFault (S.left source.old) line why }
    ensures too_long { result ≡ Err Why.TooLong → TakesCount (S.left source.old) (S.left source.new) (trace_limit + 1) }
    ensures not_too_long { result ≢ Err Why.TooLong → TakesAtMost (S.left source.old) (S.left source.new) trace_limit }
    ensures fault { result ≡ Err Why.SourceFault → HasRisen (S.faults source.old) (S.faults source.new) }
    ensures no_usage { result ≢ Err Why.Usage }
    ensures no_sink { result ≢ Err Why.SinkFault }
    ensures no_attempt { result ≡ Err Why.NoAttempt → IsLacking (seen_form form.entry) (S.left source.old) }
{
    match form {
        Form::Check => verdict_from(alloc, source),
        Form::Of(question) => answer_from(alloc, source, question),
    }
}
