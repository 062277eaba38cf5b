//! What the first accepted Enters of epochs tell, noted in order.
ghost use Rattle.std.specs.Prelude.{◌≡◌, ◌==◌, ◌∷◌, [], map, OnOk, if◌then◌else◌};
ghost use Rattle.std.specs.List.{list_any};
ghost use Rattle.mk_model.specs.EpochState.{EpochState};
ghost use Rattle.mk_model.specs.GlobalAnswers.{is_accepted as answer_is_accepted};
ghost use Rattle.mk_epoch.specs.Standing.{StandsFor};
ghost use Rattle.mk_history.specs.Learning.{entered_after, entered_through};
ghost use Rattle.mk_whole.specs.Standings.{IsItself};
ghost use Rattle.mk_run.specs.Firsts.{all_noted, kept_by_enter};
ghost use Rattle.mk_run.specs.News.{told_in, news_by_line, news_by_lines, SameEpochs};

use crate::firsts::FirstLearnings;
use crate::hearing::note_base;
use crate::{GlobalAnswer, GlobalEntry, GlobalLine};
use mk_epoch::Replicas;
use mk_merge::{Base, Keeping};
use mk_txn::NoMemory;

// Whether the line was done.
fn is_accepted(answer: GlobalAnswer) -> bool
    ensures { result ≡ answer_is_accepted answer }
{
    match answer {
        GlobalAnswer::Ok => true,
        GlobalAnswer::Counts { .. } => true,
        GlobalAnswer::Entered(_) => true,
        _ => false,
    }
}

// What the base of this epoch tells, where it was made.
fn note_epoch(
    firsts: &mut FirstLearnings,
    replicas: &Replicas<Base>,
    epoch: u32,
) -> Result<(), NoMemory>
    ensures { OnOk result ((state : EpochState) → StandsFor IsItself replicas.now state → firsts.new ≡ all_noted (map (kept_by_enter epoch) (told_in state epoch)) firsts.old) }
{
    match replicas.made(epoch) {
        Some(base) => note_base(firsts, epoch, base.fates()),
        None => Ok(()),
    }
}

// The epoch is entered, and the first time what its base tells is noted.
fn enter(
    firsts: &mut FirstLearnings,
    entered: &mut Vec<u32>,
    replicas: &Replicas<Base>,
    epoch: u32,
) -> Result<(), NoMemory>
    ensures noted { OnOk result ((state : EpochState) → StandsFor IsItself replicas.now state → firsts.new ≡ all_noted (if list_any (λ e. e == epoch) entered.old.items then [] else map (kept_by_enter epoch) (told_in state epoch)) firsts.old) }
    ensures entered { OnOk result (SameEpochs entered.new.items (epoch ∷ entered.old.items)) }
{
    if entered.contains(&epoch) {
        return Ok(());
    }
    entered.push(epoch)?;
    note_epoch(firsts, replicas, epoch)
}

// What the line tells, where it was done.
fn note_line(
    firsts: &mut FirstLearnings,
    entered: &mut Vec<u32>,
    replicas: &Replicas<Base>,
    entry: &GlobalEntry,
) -> Result<(), NoMemory>
    ensures noted { OnOk result ((state : EpochState) → StandsFor IsItself replicas.now state → firsts.new ≡ all_noted (news_by_line (told_in state) entered.old.items entry.now.answer entry.now.line) firsts.old) }
    ensures entered { OnOk result (SameEpochs entered.new.items (entered_after entry.now.answer entered.old.items entry.now.line)) }
{
    if let GlobalLine::Enter(epoch) = entry.line {
        if is_accepted(entry.answer) {
            return enter(firsts, entered, replicas, epoch);
        }
    }
    Ok(())
}

/// What the first accepted Enters of epochs tell is noted, in order, where these epochs were entered before.
pub(crate) fn note_lines(
    firsts: &mut FirstLearnings,
    entered: &mut Vec<u32>,
    replicas: &Replicas<Base>,
    lines: &[GlobalEntry],
) -> Result<(), NoMemory>
    ensures noted { OnOk result ((state : EpochState) → StandsFor IsItself replicas.now state → firsts.new ≡ all_noted (news_by_lines (told_in state) entered.old.items lines.now) firsts.old) }
    ensures entered { OnOk result (SameEpochs entered.new.items (entered_through entered.old.items lines.now)) }
{
    for entry in lines {
        note_line(firsts, entered, replicas, entry)?;
    }
    Ok(())
}
