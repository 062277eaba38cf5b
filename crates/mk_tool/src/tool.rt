//! The call that reads a trace.
ghost use Rattle.std.specs.Prelude.{◌≡◌, ◌≢◌, ◌≤◌, ◌+◌, ◌↔◌, ℕ, None, Some, is_some, length, map};
ghost use Rattle.std.specs.String.{string_bytes};
ghost use Rattle.mk_spelling.specs.declared.fault.TextFault.{TextFault as Fault};
ghost use Rattle.mk_io.specs.Faults.{HasRisen};
ghost use Rattle.mk_io.specs.Wholes.{TakesCount, TakesAtMost};
ghost use Rattle.mk_history.specs.Histories.{History};
ghost use Rattle.mk_history.specs.Legality.{IsLegal};
ghost use Rattle.mk_history.specs.Safety.{IsSafe};
ghost use Rattle.mk_history.specs.Shape.{HasShape};
ghost use Rattle.mk_trace_text.specs.Traces.{trace_text};
ghost use Rattle.mk_verdict.specs.declared.Verdict.{Verdict as Judged};
ghost use Rattle.mk_verdict.specs.declared.Verdict.TheVariants.{Legal};
ghost use Rattle.mk_verdict.specs.Flaws.{verdict_of};
ghost use Rattle.mk_ending.specs.declared.why.Why.{Why as Reason};
ghost use Rattle.mk_ending.specs.declared.why.Grammar.TheVariants.{Trace};
ghost use Rattle.mk_ending.specs.Endings.{status_of};
ghost use Rattle.mk_tool.specs.Asking.{Asked, HasAsked, asked_of};
ghost use Rattle.mk_tool.specs.Checked as spec;
ghost use Rattle.mk_tool.specs.Checked.{trace_limit, AppendsAnswer, AppendsAnswerPart, Completes, IsLacking, Tells, TellsFault, tool_status, has_verdict};

use crate::asking::form_of;
use crate::reading::judgement_from;
use mk_ending::{Grammar, Why, write_text};
use mk_io::{Sink, Source};
use mk_run::Verdict;
use std::alloc::Global;

/// How a call ended: the status that the program ends with, the verdict on the run that was read, and why no whole text
/// was written, if none was.
#[derive(Clone, Copy)]
pub struct ToolDone {
    pub status: u8,
    pub verdict: Option<Verdict>,
    pub why: Option<Why>,
}

/// The verdict that is told with a refusal before anything is written.
fn verdict_with(why: Why) -> Option<Verdict>
    ensures { result ≡ spec.verdict_with why }
{
    match why {
        Why::NoAttempt => Some(Verdict::Legal),
        _ => None,
    }
}

fn verdict_status(verdict: Verdict) -> u8
    ensures { result ≡ spec.verdict_status verdict }
{
    match verdict {
        Verdict::Legal => 0,
        Verdict::Broken { .. } => 7,
    }
}

impl ToolDone {
    /// A call that failed so before it wrote.
    pub fn refused(why: Why) -> ToolDone
        ensures { result ≡ record { status = status_of Trace why; verdict = spec.verdict_with why; why = Some why } }
    {
        ToolDone {
            status: why.status(Grammar::Trace),
            verdict: verdict_with(why),
            why: Some(why),
        }
    }
}

/// Reads the trace that the source holds and writes to the sink what the words ask for: `check` the verdict on its run,
/// `at STAMP` what the store held at the stamp, and `why ID` why the attempt ended as it did. Of a run that is not legal each
/// writes the verdict. All else is refused: with other words nothing is read, and where a refusal other than the sink's comes
/// nothing is written. For `check` the trace is judged while it is read, round by round; for the others it is kept whole. The
/// source is read to its end, its limit or a fault, and all the memory that writing needs is taken before the first write.
pub fn tool_top<S: Source, K: Sink>(
    alloc: Global,
    words: &[String],
    source: &mut S,
    sink: &mut K,
) -> ToolDone
    ensures status { result.status ≡ tool_status result.verdict result.why }

    // A verdict is told in these endings, and it is that of the run that was read.
    ensures told { is_some result.verdict ≡ has_verdict result.why }
    ensures verdict { (verdict : Judged) → result.verdict ≡ Some verdict → (run : History) × Tells (S.left source.old) run × (verdict ≡ verdict_of run) }

    // A run that is answered to be legal is legal, and safe.
    ensures safe { result.verdict ≡ Some Legal → (run : History) × Tells (S.left source.old) run × IsLegal run × IsSafe run }

    // What was asked of the run that was read was written whole, and of a run that is not legal the verdict. The status is 0
    // where the run is legal, which then has what was asked for, and there alone.
    ensures answered { result.why ≡ None → (asked : Asked) × (asked_of (map string_bytes words.now) ≡ Some asked) × ((run : History) × Tells (S.left source.old) run × (result.verdict ≡ Some (verdict_of run)) × ((result.status ≡ 0) ↔ IsLegal run) × (IsLegal run → HasAsked asked run) × AppendsAnswer asked run (K.held sink.old) (K.held sink.new)) }

    // The words are others, and nothing was read.
    ensures usage { (result.why ≡ Some Why.Usage) ↔ (asked_of (map string_bytes words.now) ≡ None) }
    ensures other_words { asked_of (map string_bytes words.now) ≡ None → source.new ≡ source.old }

    // The source held no trace: which line is faulty, and what its first fault is.
    ensures refused { (line : ℕ) (why : Fault) → result.why ≡ Some (Why.Refused line why) → TellsFault (S.left source.old) line why }

    // One byte more than a trace may have was taken, and at every other ending no more than it may have.
    ensures too_long { result.why ≡ Some Why.TooLong → TakesCount (S.left source.old) (S.left source.new) (trace_limit + 1) }
    ensures not_too_long { result.why ≢ Some Why.TooLong → TakesAtMost (S.left source.old) (S.left source.new) trace_limit }

    // Each fault comes only where the count of that object rose in this call.
    ensures source_fault { result.why ≡ Some Why.SourceFault → HasRisen (S.faults source.old) (S.faults source.new) }
    ensures sink_fault { result.why ≡ Some Why.SinkFault → HasRisen (K.faults sink.old) (K.faults sink.new) × ((asked : Asked) × (asked_of (map string_bytes words.now) ≡ Some asked) × ((run : History) × Tells (S.left source.old) run × (result.verdict ≡ Some (verdict_of run)) × AppendsAnswerPart asked run (K.held sink.old) (K.held sink.new))) }

    // The run is legal, and has no attempt of the name that was asked for.
    ensures no_attempt { result.why ≡ Some Why.NoAttempt → (result.verdict ≡ Some Legal) × ((asked : Asked) × (asked_of (map string_bytes words.now) ≡ Some asked) × IsLacking asked (S.left source.old)) }

    // The trace of a legal run is answered with status 0, or without the attempt that the run lacks, unless the source or the
    // sink failed or memory ran out.
    ensures complete { (asked : Asked) (run : History) → HasShape run → IsLegal run → S.left source.old ≡ Some (trace_text run) → length (trace_text run) ≤ trace_limit → asked_of (map string_bytes words.now) ≡ Some asked → Completes asked run result.status result.why }

    // Nothing was written at any other refusal.
    ensures untouched { (why : Reason) → result.why ≡ Some why → why ≢ Why.SinkFault → sink.new ≡ sink.old }
{
    mk_verdict::verdicts_are_exact();
    mk_safety::legal_runs_are_safe();
    mk_trace::a_trace_gives_its_run();
    let Some(form) = form_of(words) else {
        return ToolDone::refused(Why::Usage);
    };
    let judged = match judgement_from(alloc, source, form) {
        Ok(judged) => judged,
        Err(why) => return ToolDone::refused(why),
    };
    match write_text(sink, judged.text.as_str()) {
        Ok(()) => ToolDone {
            status: verdict_status(judged.verdict),
            verdict: Some(judged.verdict),
            why: None,
        },
        Err(why) => ToolDone {
            status: why.status(Grammar::Trace),
            verdict: Some(judged.verdict),
            why: Some(why),
        },
    }
}
