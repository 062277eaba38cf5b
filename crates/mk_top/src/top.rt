//! The call that the program makes.
ghost use Rattle.std.specs.Prelude.{◌≡◌, ◌≢◌, ◌+◌, ◌↔◌, ℕ, true, false, Err, Some, None, length, map, IfOk, IfErr, IfSome, IsSome};
ghost use Rattle.std.specs.String.{string_bytes};
ghost use Rattle.mk_spelling.specs.declared.fault.TextFault.{TextFault as Fault};
ghost use Rattle.mk_io.specs.Faults.{HasRisen};
ghost use Rattle.mk_io.specs.Wholes.{TakesCount, TakesAtMost};
ghost use Rattle.mk_history.specs.Legality.{IsLegal};
ghost use Rattle.mk_history.specs.Safety.{IsSafe};
ghost use Rattle.mk_history.specs.Wholes.{last_state};
ghost use Rattle.mk_lists.specs.Among.{Each};
ghost use Rattle.mk_driver.specs.Driven.{IsDriven};
ghost use Rattle.mk_store.specs.Words.{WordsRead, FaultsAreCounted, word_faults};
ghost use Rattle.mk_top.specs.declared.form.Form.{Form as FormOfWords};
ghost use Rattle.mk_top.specs.Forms as forms;
ghost use Rattle.mk_top.specs.Asked.{script_limit, SaysFault, IsUnmade, is_of_reading};
ghost use Rattle.mk_script.specs.Quiet.{IsQuiet};
ghost use Rattle.mk_script.specs.Whole.{IsWhole};
ghost use Rattle.mk_top.specs.Runs.{AllFast, IsRunOf, text_of, has_left};
ghost use Rattle.mk_top.specs.Ends.{status_by, status_of, has_run, Tells, IsOfForm};

use crate::done::Done;
use crate::form::{Form, form_of};
use crate::reading::script_of;
use crate::telling::{Told, tell};
use mk_ending::{Grammar, Why};
use mk_io::{EpochWord, Failed, Sink, Source, write_whole};
use mk_kept::Run;
use mk_lock::Gate;
use mk_proc::Procs;
use mk_script::Script;
use mk_store::run_script;
use mk_txn::NoMemory;
use std::alloc::Global;
use std::sync::Wait;
use std::thread::Threads;

/// A run that could have happened is safe. The function does nothing.
fn are_safe(run: &Run)
    requires { IsLegal run.now }
    ensures { IsSafe run.now }
{
    mk_safety::legal_runs_are_safe();
    run.has_shape();
}

/// A script keeps the limits of scripts. The function does nothing.
fn keeps_limits(script: &Script)
    ensures { IsWhole script.now }
{
    let _version = script.version;
}

/// Every attempt of a run by a quiet script commits on the fast path. The function does nothing.
fn are_fast(script: &Script, run: &Run)
    requires legal { IsLegal run.now }
    requires driven { IsDriven script.now run.now }
    ensures { IsQuiet script.now → AllFast run.now × (has_left run.now ≡ false) }
{
    mk_quiet_laws::quiet_scripts_commit_fast();
    keeps_limits(script);
    run.has_shape();
}

/// Runs the script. The run is safe, and fast where the script is quiet.
fn run_safely<W: EpochWord, G: Gate + Sync, R: Threads + Wait + Sync>(
    rt: &R,
    alloc: Global,
    script: &Script,
    epoch_words: &mut [W],
    procs: &Procs,
    gate: &G,
) -> Result<Run, NoMemory>
    requires seven { length epoch_words.old ≡ 7 }
    requires fresh { Each (λ word. W.kept word ≡ 0) epoch_words.old }
    ensures legal { IfOk result (λ run. IsLegal run) }
    ensures driven { IfOk result (λ run. IsDriven script.now run) }
    ensures safe { IfOk result (λ run. IsSafe run) }
    ensures fast { IfOk result (λ run. IsQuiet script.now → AllFast run × (has_left run ≡ false)) }
    ensures words { IfOk result (λ run. WordsRead W.kept (last_state run).epochs epoch_words.new) }
    ensures faults { IfOk result (λ run. FaultsAreCounted W.faults epoch_words.old epoch_words.new (λ r. word_faults r run.rounds)) }
{
    let run = run_script(rt, alloc, script, epoch_words, procs, gate)?;
    are_safe(&run);
    are_fast(script, &run);
    Ok(run)
}

/// Runs the script that the form asks for, and tells the run. All the memory that writing needs is taken here.
fn run_told<S: Source, W: EpochWord, G: Gate + Sync, R: Threads + Wait + Sync>(
    rt: &R,
    alloc: Global,
    form: Form,
    source: &mut S,
    epoch_words: &mut [W],
    procs: &Procs,
    gate: &G,
) -> Result<Told, Why>
    requires fits { forms.Fits form }
    requires seven { length epoch_words.old ≡ 7 }
    requires fresh { Each (λ word. W.kept word ≡ 0) epoch_words.old }
    ensures run { IfOk result (λ told. IsRunOf form (S.left source.old) told.run) }
    ensures text { IfOk result (λ told. told.text.items ≡ text_of form told.run) }
    ensures left { IfOk result (λ told. told.is_left ≡ has_left told.run) }
    ensures words { IfOk result (λ told. WordsRead W.kept (last_state told.run).epochs epoch_words.new) }
    ensures faults { IfOk result (λ told. FaultsAreCounted W.faults epoch_words.old epoch_words.new (λ r. word_faults r told.run.rounds)) }
    ensures kept { IfErr result (λ why. why ≢ Why.NoMemory → epoch_words.new ≡ epoch_words.old) }
    ensures refused { (line : ℕ) (why : Fault) → result ≡ Err (Why.Refused line why) → SaysFault (S.left source.old) line why }
    ensures too_long { result ≡ Err Why.TooLong → TakesCount (S.left source.old) (S.left source.new) (script_limit + 1) }
    ensures not_too_long { result ≢ Err Why.TooLong → TakesAtMost (S.left source.old) (S.left source.new) script_limit }
    ensures source_fault { result ≡ Err Why.SourceFault → HasRisen (S.faults source.old) (S.faults source.new) }
    ensures others { IfErr result IsUnmade }
    ensures read { IfErr result (λ why. is_of_reading why ≡ true → forms.reads form ≡ true) }
    ensures unread { forms.reads form ≡ false → source.new ≡ source.old }
{
    let script = script_of(alloc, form, source)?;
    let run = run_safely(rt, alloc, &script, epoch_words, procs, gate)?;
    Ok(tell(alloc, form, run)?)
}

/// The status of a call with a run that ended so.
fn status_with(why: Option<Why>, is_left: bool) -> u8
    ensures { result ≡ status_by why is_left }
{
    match why {
        Some(why) => why.status(Grammar::Script),
        None if is_left => 6,
        None => 0,
    }
}

/// Writes the whole text, and tells why it didn't.
fn write_text<K: Sink>(sink: &mut K, text: &[u8]) -> Option<Why>
    ensures ends { has_run result ≡ true }
    ensures text { Tells result (K.held sink.old) (K.held sink.new) text.now }
    ensures fault { result ≡ Some Why.SinkFault → HasRisen (K.faults sink.old) (K.faults sink.new) }
{
    match write_whole(sink, text) {
        Ok(()) => None,
        Err(Failed) => Some(Why::SinkFault),
    }
}

/// Writes the text of the run.
fn write_told<K: Sink>(told: Told, sink: &mut K) -> Done
    requires left { told.is_left ≡ has_left told.run }
    ensures status { result.status ≡ status_of result.why result.run }
    ensures run { result.run ≡ Some told.run }
    ensures ends { has_run result.why ≡ true }
    ensures text { Tells result.why (K.held sink.old) (K.held sink.new) told.text.items }
    ensures fault { result.why ≡ Some Why.SinkFault → HasRisen (K.faults sink.old) (K.faults sink.new) }
{
    let Told { run, text, is_left } = told;
    let why = write_text(sink, text.as_slice());
    Done {
        status: status_with(why, is_left),
        run: Some(run),
        why,
    }
}

/// Runs the script that the form asks for, and writes the text of the run.
fn run_form<S: Source, K: Sink, W: EpochWord, G: Gate + Sync, R: Threads + Wait + Sync>(
    rt: &R,
    alloc: Global,
    form: Form,
    source: &mut S,
    sink: &mut K,
    epoch_words: &mut [W],
    procs: &Procs,
    gate: &G,
) -> Done
    requires fits { forms.Fits form }
    requires seven { length epoch_words.old ≡ 7 }
    requires fresh { Each (λ word. W.kept word ≡ 0) epoch_words.old }
    ensures status { result.status ≡ status_of result.why result.run }
    ensures there { IsSome result.run ↔ (has_run result.why ≡ true) }
    ensures run { IfSome result.run (IsRunOf form (S.left source.old)) }
    ensures text { IfSome result.run (λ run. Tells result.why (K.held sink.old) (K.held sink.new) (text_of form run)) }
    ensures words { IfSome result.run (λ run. WordsRead W.kept (last_state run).epochs epoch_words.new) }
    ensures faults { IfSome result.run (λ run. FaultsAreCounted W.faults epoch_words.old epoch_words.new (λ r. word_faults r run.rounds)) }
    ensures refused { (line : ℕ) (why : Fault) → result.why ≡ Some (Why.Refused line why) → SaysFault (S.left source.old) line why }
    ensures too_long { result.why ≡ Some Why.TooLong → TakesCount (S.left source.old) (S.left source.new) (script_limit + 1) }
    ensures not_too_long { result.why ≢ Some Why.TooLong → TakesAtMost (S.left source.old) (S.left source.new) script_limit }
    ensures source_fault { result.why ≡ Some Why.SourceFault → HasRisen (S.faults source.old) (S.faults source.new) }
    ensures sink_fault { result.why ≡ Some Why.SinkFault → HasRisen (K.faults sink.old) (K.faults sink.new) }
    ensures others { IfSome result.why IsOfForm }
    ensures read { IfSome result.why (λ why. is_of_reading why ≡ true → forms.reads form ≡ true) }
    ensures unread { forms.reads form ≡ false → source.new ≡ source.old }
    ensures untouched { has_run result.why ≡ false → sink.new ≡ sink.old }
    ensures kept { has_run result.why ≡ false → result.why ≢ Some Why.NoMemory → epoch_words.new ≡ epoch_words.old }
{
    match run_told(rt, alloc, form, source, epoch_words, procs, gate) {
        Ok(told) => write_told(told, sink),
        Err(why) => Done::refused(why),
    }
}

/// Runs a script on the whole store and writes a text of its run: with the word `run` the report of the script that is read,
/// with the words `run --trace` its trace, with the words `run --json` its JSON, and with the words
/// `gen NUMBER CLIENTS TXNS KEYS` the summary of the script that is made from these numbers. All else is refused. The words are
/// tested before anything is read; what is refused comes in the order usage, source fault or too long, text, sink. Want of
/// memory comes before the first write.
///
/// The seven epoch words belong to the replicas by number and read 0 at the start. Each turn at a key lock passes the gate.
/// It waits at the key locks.
pub fn run_top<S: Source, K: Sink, W: EpochWord, G: Gate + Sync, R: Threads + Wait + Sync>(
    rt: &R,
    alloc: Global,
    words: &[String],
    source: &mut S,
    sink: &mut K,
    epoch_words: &mut [W],
    procs: &Procs,
    gate: &G,
) -> Done
    requires seven { length epoch_words.old ≡ 7 }
    requires fresh { Each (λ word. W.kept word ≡ 0) epoch_words.old }
    ensures status { result.status ≡ status_of result.why result.run }

    // A run is there exactly where its text was written whole, or else the sink failed.
    ensures there { IsSome result.run ↔ (has_run result.why ≡ true) }

    // It is a run of the script that the words ask for: it could have happened, goes by the script, and is safe. Where the
    // script is quiet, every attempt commits on the fast path and none is left, so the status is 0 unless the sink failed.
    ensures run { (form : FormOfWords) → forms.form_of (map string_bytes words.now) ≡ Some form → IfSome result.run (IsRunOf form (S.left source.old)) }

    // What was written is the text of this run that the words ask for, and a front of it where the sink failed.
    ensures text { (form : FormOfWords) → forms.form_of (map string_bytes words.now) ≡ Some form →
        IfSome result.run (λ run. Tells result.why (K.held sink.old) (K.held sink.new) (text_of form run)) }

    // Each epoch word reads that of its replica at the end of the run, and its faults are those of the run.
    ensures words { IfSome result.run (λ run. WordsRead W.kept (last_state run).epochs epoch_words.new) }
    ensures faults { IfSome result.run (λ run. FaultsAreCounted W.faults epoch_words.old epoch_words.new (λ r. word_faults r run.rounds)) }

    // The words have no form.
    ensures usage { (result.why ≡ Some Why.Usage) ↔ (forms.form_of (map string_bytes words.now) ≡ None) }

    // Only words of a form that reads a script read the source, and are refused for what it gives.
    ensures unread { forms.are_reading (forms.form_of (map string_bytes words.now)) ≡ false → source.new ≡ source.old }
    ensures read { IfSome result.why (λ why. is_of_reading why ≡ true → forms.are_reading (forms.form_of (map string_bytes words.now)) ≡ true) }

    // The source held no script: which line is faulty, and what its first fault is.
    ensures refused { (line : ℕ) (why : Fault) → result.why ≡ Some (Why.Refused line why) → SaysFault (S.left source.old) line why }

    // One byte more than a script may have was taken, and at every other ending no more than it may have.
    ensures too_long { result.why ≡ Some Why.TooLong → TakesCount (S.left source.old) (S.left source.new) (script_limit + 1) }
    ensures not_too_long { result.why ≢ Some Why.TooLong → TakesAtMost (S.left source.old) (S.left source.new) script_limit }

    // Each fault comes only where the count of that object rose in this call.
    ensures source_fault { result.why ≡ Some Why.SourceFault → HasRisen (S.faults source.old) (S.faults source.new) }
    ensures sink_fault { result.why ≡ Some Why.SinkFault → HasRisen (K.faults sink.old) (K.faults sink.new) }

    // No run lacks an attempt that is asked for.
    ensures no_attempt { result.why ≢ Some Why.NoAttempt }

    // Where there is no run, nothing was written, and no epoch word was touched unless memory was wanting.
    ensures untouched { has_run result.why ≡ false → sink.new ≡ sink.old }
    ensures kept { has_run result.why ≡ false → result.why ≢ Some Why.NoMemory → epoch_words.new ≡ epoch_words.old }
{
    match form_of(words) {
        Some(form) => run_form(rt, alloc, form, source, sink, epoch_words, procs, gate),
        None => Done::refused(Why::Usage),
    }
}
