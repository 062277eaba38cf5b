//! What was learned in a column.
ghost use Rattle.std.specs.Prelude.{◌≡◌, ◌∷◌, ◌++◌, [], IsSome, OnOk, OnErr};
ghost use Rattle.mk_trim.specs.SettledAttempts.{AlsoSettles};
ghost use Rattle.mk_column.specs.AttemptsByCode.{begun_of};
ghost use Rattle.mk_column.specs.ColumnByCode.{own_learned};

use crate::attempts::Attempts;
use mk_trim::Settled;
use mk_txn::{NoMemory, Outcome, TxnId};

/// How an outcome was learned: by fast votes, by accepts of the own proposal, by the pick of a view that a majority
/// accepted, by a replica of a later epoch, by being told, or by a replica's finishing.
#[derive(Clone, Copy)]
pub enum Way {
    Votes,
    Accepts,
    Pick(u32),
    Moved(u32),
    Telling,
    Finishing,
}

/// Somebody learned the outcome of an attempt.
#[derive(Clone, Copy)]
pub struct Learned {
    pub id: TxnId,
    pub outcome: Outcome,
    pub way: Way,
}

/// The own coordinator of the lesson's attempt learns it, which settles the attempt. The first outcome stays.
pub(crate) fn learn_own(
    attempts: &mut Attempts,
    settled: &mut Settled,
    learned: &mut Vec<Learned>,
    lesson: Learned,
) -> Result<(), NoMemory>
    requires { IsSome (begun_of lesson.id attempts.old) }
    ensures attempts { OnOk result (attempts.new ≡ own_learned lesson.id lesson.outcome attempts.old) }
    ensures settled { OnOk result (AlsoSettles settled.old settled.new lesson.id) }
    ensures learned { OnOk result (learned.new.items ≡ learned.old.items ++ lesson ∷ []) }
    ensures err { OnErr result ((attempts.new ≡ attempts.old) × (settled.new ≡ settled.old) × (learned.new.items ≡ learned.old.items)) }
{
    learned.reserve(1)?;
    settled.settle(lesson.id)?;
    attempts.learn(lesson.id, lesson.outcome);
    attempts.decide(lesson.id, lesson.outcome);
    if learned.push(lesson).is_err() {
        unreachable!();
    }
    Ok(())
}
