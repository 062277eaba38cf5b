//! The global lines of a round replayed.
ghost use Rattle.std.specs.Prelude.{◌≡◌, None, true, IfOk};
ghost use Rattle.mk_history.specs.Histories.{History};
ghost use Rattle.mk_history.specs.Wholes.{WholeState, after_global, globals_through};
ghost use Rattle.mk_state.specs.Standings.{IsWithin, MayDo};
ghost use Rattle.mk_state.specs.Words.{IsWordFor};
ghost use Rattle.mk_verdict.specs.Flaws.{flaw_of_globals};
ghost use Rattle.mk_verdict.specs.Sameness.{same_global, may_answer};
ghost use Rattle.mk_whole.specs.Standings.{IsItself, LinesMayBeDone};

use crate::{Flaw, GlobalAnswer, GlobalEntry, GlobalLine, Place, PlacedFlaw};
use mk_io::{EpochWord, SureWord};
use mk_merge::Base;
use mk_state::Whole;
use mk_txn::NoMemory;

// A word that reads this number, and never fails.
fn word_of(number: u32) -> SureWord
    ensures { result ≡ number }
{
    let mut word = SureWord::new();
    if word.set(number).is_err() {
        unreachable!();
    }
    word
}

// The word that goes with the line.
fn word_for(whole: &Whole<Base>, line: GlobalLine) -> SureWord
    requires { (run : History) × (state : WholeState) × MayDo IsItself run state whole.now line }
    ensures { IsWordFor line whole.now.epochs result }
{
    match line {
        GlobalLine::Promise { replica, .. } => word_of(whole.replicas().word(replica)),
        GlobalLine::Adopt { replica, .. } => word_of(whole.replicas().word(replica)),
        GlobalLine::Merge(epoch) => word_of(whole.replicas().word(epoch % whole.size().n())),
        _ => SureWord::new(),
    }
}

fn is_same(a: GlobalAnswer, b: GlobalAnswer) -> bool
    ensures { result ≡ same_global a b }
{
    a == b
}

// Whether the line would write a word, which it does not do here.
fn may_write(whole: &Whole<Base>, line: GlobalLine) -> bool
    requires { (run : History) × (state : WholeState) × MayDo IsItself run state whole.now line }
    ensures { (run : History) (state : WholeState) → MayDo IsItself run state whole.now line → result ≡ may_answer state.epochs line GlobalAnswer.WordFault }
{
    match line {
        GlobalLine::Promise { epoch, replica } => {
            whole.replicas().may_promise(epoch, replica).is_ok()
        }
        GlobalLine::Adopt { epoch, replica } => whole.replicas().may_adopt(epoch, replica).is_ok(),
        _ => false,
    }
}

// Whether the line can have its answer; it is done, unless it failed at its word.
fn allows(whole: &mut Whole<Base>, entry: &GlobalEntry) -> Result<bool, NoMemory>
    requires { (run : History) × (state : WholeState) × MayDo IsItself run state whole.old entry.now.line }
    ensures allowed { IfOk result (λ allowed. (run : History) (state : WholeState) → MayDo IsItself run state whole.old entry.now.line → allowed ≡ may_answer state.epochs entry.now.line entry.now.answer) }
    ensures after { IfOk result (λ allowed. allowed ≡ true → (run : History) (state : WholeState) → MayDo IsItself run state whole.old entry.now.line → IsWithin IsItself run whole.new (after_global run state entry.now)) }
{
    if is_same(entry.answer, GlobalAnswer::WordFault) {
        return Ok(may_write(whole, entry.line));
    }
    let mut word = word_for(whole, entry.line);
    let answer = whole.do_line(entry.line, &mut word)?;
    Ok(is_same(entry.answer, answer))
}

/// The lines are done in order. Answers the first that cannot have its answer.
pub(crate) fn replay_globals(
    whole: &mut Whole<Base>,
    entries: &[GlobalEntry],
) -> Result<Option<PlacedFlaw>, NoMemory>
    requires { (run : History) × (state : WholeState) × LinesMayBeDone run state whole.old entries.now }
    ensures flaw { IfOk result (λ flaw. (run : History) (state : WholeState) → LinesMayBeDone run state whole.old entries.now → flaw ≡ flaw_of_globals run state 1 entries.now) }
    ensures after { IfOk result (λ flaw. flaw ≡ None → (run : History) (state : WholeState) → LinesMayBeDone run state whole.old entries.now → IsWithin IsItself run whole.new (globals_through run state entries.now)) }
{
    for (place, entry) in entries.iter().enumerate() {
        if !allows(whole, entry)? {
            return Ok(Some(PlacedFlaw {
                place: Place::Global {
                    entry: place as u64 + 1,
                },
                why: Flaw::Answer,
            }));
        }
    }
    Ok(None)
}
