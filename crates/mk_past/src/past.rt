//! The past of a run.
use crate::index::Past;
use crate::laws::commits_are_listed;
use crate::order::indexed;
use mk_run::{AttemptLine, Run, outcomes};
use mk_txn::NoMemory;
use std::alloc::Global;

impl Past {
    ghost use Rattle.std.specs.Prelude.{◌≡◌, IfOk};
    ghost use Rattle.mk_history.specs.Learning.{commits};
    ghost use Rattle.mk_history.specs.Legality.{IsLegal};
    ghost use Rattle.mk_run.specs.Attempts.{outcomes_of};
    ghost use Rattle.mk_past.specs.Indexes.{IsPastOf};

    /// What the store held at every stamp of a legal run.
    pub fn new(alloc: Global, run: &Run) -> Result<Past, NoMemory>
        requires { IsLegal run.now }
        ensures { IfOk result (λ past. IsPastOf past (commits run.now)) }
    {
        let lines = outcomes(alloc, run)?;
        Past::of_lines(alloc, run, lines.as_slice())
    }

    /// The same, of a run whose outcomes these lines are.
    pub fn of_lines(alloc: Global, run: &Run, lines: &[AttemptLine]) -> Result<Past, NoMemory>
        requires legal { IsLegal run.now }
        requires lines { lines.now ≡ outcomes_of run.now }
        ensures { IfOk result (λ past. IsPastOf past (commits run.now)) }
    {
        commits_are_listed();
        mk_report::commits_are_distinct();
        mk_safety::commits_are_explained();
        run.has_shape();
        Ok(indexed(alloc, lines)?)
    }
}
