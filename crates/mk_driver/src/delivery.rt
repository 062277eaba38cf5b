//! Delivering messages by their fates, and taking those of the two lists.
ghost use Rattle.std.specs.Prelude.{◌≡◌, ◌≤◌, [], ◌∷◌, IfOk, OnOk, OnErr, IsSome, slice_get};
ghost use Rattle.mk_driver.specs.declared.DriverState.{DriverState};
ghost use Rattle.mk_driver.specs.declared.Task.TheVariants.{Deliver, DeliverSince};
ghost use Rattle.mk_driver.specs.Agenda.{with_late as spec_late};
ghost use Rattle.mk_driver.specs.Delivery.{taking, delivering_from, taking_late, noticing};
ghost use Rattle.mk_driver.specs.Turns.{work_on as worked_on};
ghost use Rattle.mk_driver.specs.Passing.{ComesTo, IsDone, NamesAlike, after_first, without_first};

use crate::views::{attempt_at, fate, learned, sent};
use crate::{DriverState, Task};
use mk_column::Column;
use mk_faults::Rules;
use mk_script::Fate;
use mk_txn::{NoMemory, Outcome, TxnId};
use mk_words::Step;

impl DriverState {
    /// A late message goes to the late list, and once no part is left, to the next round.
    fn put_late(&mut self, number: u64) -> Result<(), NoMemory>
        ensures ok { OnOk result (self.new ≡ spec_late number self.old) }
        ensures err { OnErr result (self.new ≡ self.old) }
    {
        if self.parts.is_empty() {
            self.held.insert(number)
        } else {
            self.late.insert(number)
        }
    }

    /// A message is taken, and after its answer this task comes.
    fn take_one(
        &mut self,
        number: u64,
        after: Task,
        column: &Column,
    ) -> Result<Option<Step>, NoMemory>
        requires { IsSome (slice_get self.old.agenda 0) }
        ensures comes { IfOk result (λ step. ComesTo (taking column.now.state number (after ∷ []) (without_first self.old)) step self.new) }
        ensures named { IfOk result (λ step. IsSome step) }
        ensures err { OnErr result (self.new ≡ self.old) }
    {
        match attempt_at(column, number) {
            Some(id) => {
                let sent = sent(column);
                self.agenda
                    .put_three(Task::Notice { id }, Task::DeliverSince { sent }, after)?;
            }
            None => self.agenda.set_first(after),
        }
        Ok(Some(Step::Take { number }))
    }

    /// A message is taken, and after its answer these tasks come.
    fn take_two(
        &mut self,
        number: u64,
        one: Task,
        two: Task,
        column: &Column,
    ) -> Result<Option<Step>, NoMemory>
        requires { IsSome (slice_get self.old.agenda 0) }
        ensures comes { IfOk result (λ step. ComesTo (taking column.now.state number (one ∷ (two ∷ [])) (without_first self.old)) step self.new) }
        ensures named { IfOk result (λ step. IsSome step) }
        ensures err { OnErr result (self.new ≡ self.old) }
    {
        match attempt_at(column, number) {
            Some(id) => {
                let sent = sent(column);
                self.agenda
                    .put_four(Task::Notice { id }, Task::DeliverSince { sent }, one, two)?;
            }
            None => self.agenda.put_two(one, two)?,
        }
        Ok(Some(Step::Take { number }))
    }

    /// A message is taken whatever its fate, and its answer is delivered.
    pub(crate) fn take_alone(
        &mut self,
        number: u64,
        column: &Column,
    ) -> Result<Option<Step>, NoMemory>
        ensures comes { IfOk result (λ step. ComesTo (taking column.now.state number [] (without_first self.old)) step self.new) }
        ensures named { IfOk result (λ step. IsSome step) }
        ensures err { OnErr result (self.new ≡ self.old) }
    {
        match attempt_at(column, number) {
            Some(id) => {
                let sent = sent(column);
                self.agenda
                    .put_two(Task::Notice { id }, Task::DeliverSince { sent })?;
            }
            None => self.agenda.drop_first(),
        }
        Ok(Some(Step::Take { number }))
    }

    /// The first message of the late list is taken, if there is one.
    pub(crate) fn take_late(&mut self, column: &Column) -> Result<Option<Step>, NoMemory>
        requires { IsSome (slice_get self.old.agenda 0) }
        ensures comes { IfOk result (λ step. ComesTo (taking_late column.now.state self.old.late (without_first self.old)) step self.new) }
        ensures rest { IfOk result (λ step. IsDone self.old step self.new) }
        ensures err { OnErr result (self.new ≡ self.old) }
    {
        let Some(number) = self.late.first() else {
            self.agenda.drop_first();
            return Ok(None);
        };
        match attempt_at(column, number) {
            Some(id) => {
                let sent = sent(column);
                self.agenda.put_three(
                    Task::Notice { id },
                    Task::DeliverSince { sent },
                    Task::Late,
                )?;
            }
            None => self.agenda.set_first(Task::Late),
        }
        self.late.drop_first();
        Ok(Some(Step::Take { number }))
    }

    /// The messages with these numbers, each by its fate.
    #[tactic(auto, using(crate::proofs::Delivering::delivering_first, crate::proofs::Delivering::delivering_none, crate::proofs::Delivering::late_apart))]
    pub(crate) fn deliver(
        &mut self,
        first: u64,
        upto: u64,
        column: &Column,
        rules: &Rules,
    ) -> Result<Option<Step>, NoMemory>
        requires { self.old.agenda ≡ Deliver first upto ∷ after_first self.old.agenda }
        ensures comes { IfOk result (λ step. ComesTo (delivering_from rules.now column.now.state first upto (without_first self.old)) step self.new) }
        ensures rest { IfOk result (λ step. IsDone self.old step self.new) }
        ensures err { OnErr result (NamesAlike rules.now column.now.setting column.now.state self.old self.new) }
        ensures parts_kept { OnErr result (self.new.parts ≡ self.old.parts) }
    {
        let mut number = first;
        while number < upto {
            match fate(column, number, rules) {
                Fate::Deliver => {
                    let rest = Task::Deliver {
                        first: number + 1,
                        end: upto,
                    };
                    return self.take_one(number, rest, column);
                }
                Fate::Twice => {
                    let rest = Task::Deliver {
                        first: number + 1,
                        end: upto,
                    };
                    return self.take_two(number, Task::Take { number }, rest, column);
                }
                Fate::Lose => {}
                Fate::Late => self.put_late(number)?,
                Fate::NextRound => self.held.insert(number)?,
            }
            number += 1;
            self.agenda.set_first(Task::Deliver {
                first: number,
                end: upto,
            });
        }
        self.agenda.drop_first();
        Ok(None)
    }

    /// The messages that were sent after this number.
    pub(crate) fn deliver_since(
        &mut self,
        sent_before: u64,
        column: &Column,
        rules: &Rules,
    ) -> Result<Option<Step>, NoMemory>
        requires { self.old.agenda ≡ DeliverSince sent_before ∷ after_first self.old.agenda }
        ensures comes { IfOk result (λ step. ComesTo (worked_on rules.now column.now.setting column.now.state (DeliverSince sent_before) (without_first self.old)) step self.new) }
        ensures rest { IfOk result (λ step. IsDone self.old step self.new) }
        ensures err { OnErr result (NamesAlike rules.now column.now.setting column.now.state self.old self.new) }
        ensures parts_kept { OnErr result (self.new.parts ≡ self.old.parts) }
    {
        let last = sent(column);
        if last <= sent_before {
            self.agenda.drop_first();
            return Ok(None);
        }
        if last == u64::MAX {
            return Err(NoMemory);
        }
        self.agenda.set_first(Task::Deliver {
            first: sent_before + 1,
            end: last + 1,
        });
        self.deliver(sent_before + 1, last + 1, column, rules)
    }

    /// Once the attempt's own coordinator has learned, its trial ends.
    pub(crate) fn notice(&mut self, id: TxnId, column: &Column) -> Result<Option<Step>, NoMemory>
        ensures comes { IfOk result (λ step. ComesTo (noticing column.now.state id (without_first self.old)) step self.new) }
        ensures rest { IfOk result (λ step. IsDone self.old step self.new) }
        ensures err { OnErr result (self.new ≡ self.old) }
    {
        match learned(column, id) {
            Some(Outcome::Abort(_)) => self.callers.retry(id)?,
            Some(Outcome::Commit) => self.callers.end(id),
            None => {}
        }
        self.agenda.drop_first();
        Ok(None)
    }
}
