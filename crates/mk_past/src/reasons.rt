//! Why an attempt ended as it did.
ghost use Rattle.std.specs.Prelude.{◌≡◌, ◌↔◌, Some, IfOk, IsNone, option_copied};
ghost use Rattle.mk_history.specs.Legality.{IsLegal};
ghost use Rattle.mk_history.specs.Shape.{HasShape};
ghost use Rattle.mk_run.specs.Attempts.{outcomes_of};
ghost use Rattle.mk_past.specs.Reasons as spec;

use crate::laws::{attempts_have_lines, lines_are_reasoned};
use crate::refusals::{CheckPlace, first_refusal};
use mk_history::{Left, Path, State};
use mk_run::{AttemptLine, Run, outcomes};
use mk_txn::{Cause, Conflict, NoMemory, Outcome, Stamp, TxnId, same_id, same_stamp};
use std::alloc::Global;

/// Why an attempt ended as it did, by what was learned first of it.
#[derive(Clone, Copy)]
pub enum Reasoned {
    /// It committed, and this is how that was learned.
    Commit(Path),
    /// The first check of it that was refused so: its round, and the entry of its key's journal at a replica. Rounds and
    /// entries count from 1, replicas from 0. The owner is the attempt whose stamp the refusal names, and ended so.
    Conflict {
        conflict: Conflict,
        round: u32,
        replica: u32,
        entry: u64,
        owner: TxnId,
        state: State,
    },
    /// The takeover of this view found no trace of a commit.
    Takeover(u32),
    /// The change to this epoch found no trace of a commit.
    Epoch(u32),
    /// Nobody learned.
    Open(Left),
}

// The line of an attempt.
fn line_of_id(lines: &[AttemptLine], id: TxnId) -> Option<&AttemptLine>
    ensures { option_copied result ≡ spec.line_of_id id lines.now }
{
    lines.iter().find(|line| same_id(line.id, id))
}

fn is_stamp(own: Option<Stamp>, stamp: Stamp) -> bool
    ensures { result ≡ spec.is_stamp stamp own }
{
    match own {
        Some(own) => same_stamp(own, stamp),
        None => false,
    }
}

// The line of the attempt that has this stamp.
fn line_of_stamp(lines: &[AttemptLine], stamp: Stamp) -> Option<&AttemptLine>
    ensures { option_copied result ≡ spec.line_of_stamp stamp lines.now }
{
    lines.iter().find(|line| is_stamp(line.stamp, stamp))
}

// The first refused check of an attempt with this stamp.
fn refusal_of(run: &Run, conflict: Conflict, stamp: Option<Stamp>) -> Option<CheckPlace>
    ensures { result ≡ spec.refusal_of run.now conflict stamp }
{
    match stamp {
        Some(stamp) => {
            let replicas = run.head().size.n();
            first_refusal(run.rounds(), replicas, stamp, conflict)
        }
        None => None,
    }
}

// A refused check, and the line of the attempt that it names.
fn by_conflict(
    conflict: Conflict,
    place: Option<CheckPlace>,
    owner: Option<&AttemptLine>,
) -> Option<Reasoned>
    ensures { result ≡ spec.by_conflict conflict place (option_copied owner.entry) }
{
    match place {
        Some(place) => match owner {
            Some(owner) => Some(Reasoned::Conflict {
                conflict,
                round: place.round,
                replica: place.replica,
                entry: place.entry,
                owner: owner.id,
                state: owner.state,
            }),
            None => None,
        },
        None => None,
    }
}

// Why an attempt with this stamp aborted by the cause.
fn by_cause(
    run: &Run,
    lines: &[AttemptLine],
    stamp: Option<Stamp>,
    cause: Cause,
) -> Option<Reasoned>
    ensures { lines.now ≡ outcomes_of run.now → result ≡ spec.by_cause run.now stamp cause }
{
    match cause {
        Cause::Conflict(conflict) => {
            let place = refusal_of(run, conflict, stamp);
            by_conflict(conflict, place, line_of_stamp(lines, conflict.stamp))
        }
        Cause::Takeover(view) => Some(Reasoned::Takeover(view)),
        Cause::Epoch(epoch) => Some(Reasoned::Epoch(epoch)),
    }
}

// Why the attempt of a line ended so.
fn by_state(run: &Run, lines: &[AttemptLine], line: &AttemptLine) -> Option<Reasoned>
    ensures { lines.now ≡ outcomes_of run.now → result ≡ spec.by_state run.now line.now.stamp line.now.state }
{
    match line.state {
        State::Learned { outcome, path } => match outcome {
            Outcome::Commit => Some(Reasoned::Commit(path)),
            Outcome::Abort(cause) => by_cause(run, lines, line.stamp, cause),
        },
        State::Left(left) => Some(Reasoned::Open(left)),
    }
}

/// Why the attempt ended as it did in a legal run, and None exactly where the run has no such attempt.
pub fn why(alloc: Global, run: &Run, id: TxnId) -> Result<Option<Reasoned>, NoMemory>
    requires { IsLegal run.now }
    ensures reason { IfOk result (λ reason. reason ≡ spec.reason_of run.now id) }
    ensures none { IfOk result (λ reason. IsNone reason ↔ ¬ (spec.HasAttempt run.now id)) }
{
    attempts_have_lines();
    lines_are_reasoned();
    run.has_shape();
    let lines = outcomes(alloc, run)?;
    match line_of_id(lines.as_slice(), id) {
        Some(line) => Ok(by_state(run, lines.as_slice(), line)),
        None => Ok(None),
    }
}
