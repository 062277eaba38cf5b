//! The clients are gone through, again and again, until none of them did anything.
ghost use Rattle.std.specs.Prelude.{◌≡◌, ◌∷◌, ◌-◌, Bool, length, IfOk, OnErr, IsSome, slice_get};
ghost use Rattle.mk_model.specs.ColumnState.{numbers_from};
ghost use Rattle.mk_driver.specs.declared.DriverState.{DriverState};
ghost use Rattle.mk_driver.specs.declared.Task.TheVariants.{Turns};
ghost use Rattle.mk_driver.specs.Agenda.{Worked};
ghost use Rattle.mk_driver.specs.Passes.{in_pass, turns};
ghost use Rattle.mk_driver.specs.Turns.{Choice, or_next};
ghost use Rattle.mk_driver.specs.Passing.{ComesTo, IsDone, NamesAlike, IsKeptBy, passed, after_first, without_first};

use crate::{DriverState, Passed, Task, Turned};
use mk_column::Column;
use mk_faults::Rules;
use mk_quorum::Size;
use mk_txn::NoMemory;
use mk_words::Step;

impl DriverState {
    /// The turns of the clients from this place on.
    #[tactic(auto, using(crate::proofs::Passing::pass_first, crate::proofs::Passing::pass_none))]
    fn one_pass(&mut self, place: usize, did: bool, column: &Column, size: Size) -> Passed
        requires size { column.now.setting.faults ≡ size }
        requires first { IsSome (slice_get self.old.agenda 0) }
        ensures comes { (after : Bool → DriverState → Worked) (end : DriverState → Choice) →
            or_next (in_pass column.now.setting column.now.state after (numbers_from place (length self.old.callers - place)) did (without_first self.old)) end
            ≡ passed column.now.setting column.now.state result after end self.new }
        ensures rest { IsKeptBy self.old self.new result }
    {
        let mut at = place;
        let mut done = did;
        while at < self.callers.len() {
            match self.client_turn(at, column, size) {
                Err(_) => {
                    return Passed::Stuck {
                        place: at,
                        did: done,
                    };
                }
                Ok(Turned::Stepped(step)) => return Passed::Stepped(step),
                Ok(Turned::Silent) => done = true,
                Ok(Turned::Nothing) => {}
            }
            at += 1;
        }
        Passed::Ended(done)
    }

    /// The clients are gone through from this place on, and again as long as one of them did anything.
    #[tactic(auto, using(crate::proofs::PassesSuffice::pass_over, crate::proofs::PassesSuffice::passes_left))]
    pub(crate) fn go_through(
        &mut self,
        place: usize,
        did: bool,
        column: &Column,
        rules: &Rules,
        size: Size,
    ) -> Result<Option<Step>, NoMemory>
        requires size { column.now.setting.faults ≡ size }
        requires first { self.old.agenda ≡ Turns place did ∷ after_first self.old.agenda }
        ensures comes { IfOk result (λ step. ComesTo (turns column.now.setting column.now.state place did (without_first self.old)) step self.new) }
        ensures rest { IfOk result (λ step. IsDone self.old step self.new) }
        ensures err { OnErr result (NamesAlike rules.now column.now.setting column.now.state self.old self.new) }
        ensures parts_kept { OnErr result (self.new.parts ≡ self.old.parts) }
    {
        let mut at = place;
        let mut done = did;
        for pass in 0..2u32 {
            match self.one_pass(at, done, column, size) {
                Passed::Stepped(step) => return Ok(Some(step)),
                Passed::Stuck { place, did } => {
                    self.agenda.set_first(Task::Turns { place, did });
                    return Err(NoMemory);
                }
                Passed::Ended(false) => {
                    self.agenda.drop_first();
                    return Ok(None);
                }
                Passed::Ended(true) => {
                    at = 0;
                    done = false;
                }
            }
        }
        match self.one_pass(at, done, column, size) {
            Passed::Stepped(step) => Ok(Some(step)),
            Passed::Stuck { place, did } => {
                self.agenda.set_first(Task::Turns { place, did });
                Err(NoMemory)
            }
            Passed::Ended(_) => {
                self.agenda.drop_first();
                Ok(None)
            }
        }
    }
}
