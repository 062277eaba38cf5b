//! The driver of one column.
ghost use Rattle.std.specs.Prelude.{◌≡◌, ◌+◌, ◌<◌, ◌++◌, ◌∷◌, [], ℕ, List, length, Some, slice_get, IsSome, IfOk, OnOk, OnErr};
ghost use Rattle.mk_faults.specs.Fates.{rules_of};
ghost use Rattle.mk_trim.specs.declared.ReplicaView.{ReplicaView};
ghost use Rattle.mk_script.specs.Scripts.{ScriptParts};
ghost use Rattle.mk_words.specs.declared.Step.{Step as OneStep};
ghost use Rattle.mk_column.specs.ColumnByCode.{ColumnView};
ghost use Rattle.mk_history.specs.Histories.{log_of};
ghost use Rattle.mk_driver.specs.declared.RoundLines.{RoundLines as Lines};
ghost use Rattle.mk_driver.specs.Turns.{choice};
ghost use Rattle.mk_driver.specs.Driven.{PastRound, begun_with, turn};
ghost use Rattle.mk_driver.specs.Drivers.{DriverView, after_lines};
ghost use Rattle.mk_driver.specs.Standings.{Stands, StandsAlike, IsFirst, IsStepped, IsNextRound};
ghost use Rattle.mk_driver.specs.declared.Next.TheVariants.{Over};
ghost use Rattle.mk_driver.specs.Passing.{named_call, IfOver};
ghost use Rattle.mk_model.specs.Conditions.{wanted};

use crate::{Driver, Next};
use mk_column::Column;
use mk_faults::Rules;
use mk_proc::Procs;
use mk_txn::NoMemory;

impl Driver {
    /// The next round begins. After an error nothing has changed.
    pub fn begin_round(&mut self, round: u32) -> Result<(), NoMemory>
        requires next { round ≡ self.old.round + 1 }
        requires left { IsSome (slice_get self.old.rounds 0) }
        ensures begun { OnOk result ((lines : Lines) → slice_get self.old.rounds 0 ≡ Some lines →
            self.new ≡ record self.old { round = round; rounds = after_lines self.old.rounds; driver = begun_with lines self.old.driver }) }
        ensures err { OnErr result (self.new ≡ self.old) }
        ensures size { self.new.size ≡ self.old.size }
        ensures column { self.new.column ≡ self.old.column }
    {
        let Some(lines) = self.rounds.front() else {
            unreachable!()
        };
        self.state.begin_round(lines)?;
        let _ = self.rounds.pop_front();
        self.round = round;
        Ok(())
    }

    /// What comes next at the column: what the turns name, for all rounds, views and log that the two stand for. A key call comes
    /// exactly where the column wants one. Once nothing more is named, nothing more is named again, and the two stand as before.
    /// After an error the same comes next.
    #[tactic(auto, using(crate::proofs::StandingLaws::names_turn, crate::proofs::StandingLaws::stands_still, crate::proofs::StandingLaws::stands_over))]
    pub fn next(&mut self, column: &Column, rules: &Rules, procs: &Procs) -> Result<Next, NoMemory>
        requires { column.now.setting.faults ≡ self.old.size }
        ensures named { IfOk result (λ next.
            choice rules.now column.now.setting column.now.state self.old.driver ≡ record { next = next; driver = self.new.driver }) }
        ensures key { IfOk result (λ next. named_call next ≡ wanted column.now.state.work) }
        ensures over { IfOk result (λ next. IfOver next (
            choice rules.now column.now.setting column.now.state self.new.driver ≡ record { next = Over; driver = self.new.driver })) }
        ensures over_stands { IfOk result (λ next. IfOver next (StandsAlike rules.now self.old self.new column.now)) }
        ensures kept { OnErr result (
            choice rules.now column.now.setting column.now.state self.old.driver
            ≡ choice rules.now column.now.setting column.now.state self.new.driver) }
        ensures rest { self.new ≡ record self.old { driver = self.new.driver } }
        ensures turn { IfOk result (λ next. (script : ScriptParts) (rounds : List PastRound) (views : List ReplicaView) (log : List OneStep) →
            rules.now ≡ rules_of script → Stands script self.old column.now rounds views log → next ≡ turn script self.old.column rounds views log) }
        ensures stands { OnErr result (StandsAlike rules.now self.old self.new column.now) }
    {
        self.state.next(column, rules, procs, self.size)
    }
}

/// A new driver and a new column stand, once the first round began on both, for no finished round, the views handed in
/// and the empty log.
pub fn stands_at_first()
    ensures { (script : ScriptParts) (views : List ReplicaView) (driver : DriverView) (column : ColumnView) (number : ℕ) →
        IsFirst script number views driver column → Stands script driver column [] views [] }
{}

/// Where they stand and the script has a round more, its lines are left.
pub fn next_round_is_left()
    ensures { (script : ScriptParts) (rounds : List PastRound) (views : List ReplicaView) (log : List OneStep)
        (driver : DriverView) (column : ColumnView) →
        Stands script driver column rounds views log → length rounds + 1 < length script.rounds → IsSome (slice_get driver.rounds 0) }
{}

/// After a step they stand for the log with that step.
pub fn stands_after_step()
    ensures { (script : ScriptParts) (rounds : List PastRound) (views : List ReplicaView) (log : List OneStep) (step : OneStep)
        (driver new_driver : DriverView) (column new_column : ColumnView) →
        Stands script driver column rounds views log → IsStepped script step driver new_driver column new_column →
        Stands script new_driver new_column rounds views (log ++ step ∷ []) }
{}

/// After a later beginning they stand for the finished round too, the views handed in and the empty log.
pub fn stands_after_round()
    ensures { (script : ScriptParts) (rounds : List PastRound) (past : PastRound) (views : List ReplicaView)
        (driver new_driver : DriverView) (column new_column : ColumnView) →
        Stands script driver column rounds past.views (log_of past.round driver.column) →
        IsNextRound script past views driver new_driver column new_column →
        Stands script new_driver new_column (rounds ++ past ∷ []) views [] }
{}
