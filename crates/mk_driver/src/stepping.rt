//! How the driver finds the next step: a loop over the parts that are left, and in it one over the tasks that are left.
ghost use Rattle.std.specs.Prelude.{◌≡◌, ◌<◌, [], ◌∷◌, false, length, IfOk, OnOk, OnErr, IfNone, IsTrue, if◌then◌else◌};
ghost use Rattle.mk_driver.specs.declared.Next.TheVariants.{Over};
ghost use Rattle.mk_driver.specs.declared.DriverState.{DriverState};
ghost use Rattle.mk_driver.specs.Turns.{Choice, choice, in_agenda, in_parts, tasks_of, with_agenda, work_on as worked_on};
ghost use Rattle.mk_driver.specs.Passing.{ComesTo, IsDone, NamesAlike, IfOver, named_call, ended, after_first, without_first};
ghost use Rattle.mk_model.specs.Conditions.{wanted};

use crate::{DriverState, Next, Part, Task};
use mk_column::Column;
use mk_faults::Rules;
use mk_proc::Procs;
use mk_quorum::Size;
use mk_txn::NoMemory;
use mk_words::Step;

impl DriverState {
    /// What comes of the first task.
    fn work_on(
        &mut self,
        task: Task,
        column: &Column,
        rules: &Rules,
        procs: &Procs,
        size: Size,
    ) -> Result<Option<Step>, NoMemory>
        requires size { column.now.setting.faults ≡ size }
        requires first { self.old.agenda ≡ task ∷ after_first self.old.agenda }
        ensures comes { IfOk result (λ step. ComesTo (worked_on rules.now column.now.setting column.now.state task (without_first self.old)) step self.new) }
        ensures rest { IfOk result (λ step. IsDone self.old step self.new) }
        ensures err { OnErr result (NamesAlike rules.now column.now.setting column.now.state self.old self.new) }
        ensures parts_kept { OnErr result (self.new.parts ≡ self.old.parts) }
    {
        match task {
            Task::Deliver { first, end } => self.deliver(first, end, column, rules),
            Task::DeliverSince { sent } => self.deliver_since(sent, column, rules),
            Task::Take { number } => self.take_alone(number, column),
            Task::Notice { id } => self.notice(id, column),
            Task::Fetch { id } => self.fetch(id, column, procs),
            Task::Reach { id, point } => self.reach(id, point, column, rules),
            Task::Resume { id } => self.resume(id, column),
            Task::Turns { place, did } => self.go_through(place, did, column, rules, size),
            Task::Takeover { id, view } => self.take_over(id, view, column),
            Task::Late => self.take_late(column),
            Task::Settle { id } => self.settle(id, column),
            Task::SettleTakeover { id, view } => self.settle_takeover(id, view, column),
        }
    }

    /// The next part begins, if one is left.
    fn open_part(&mut self, column: &Column, rules: &Rules) -> Result<bool, NoMemory>
        requires { self.old.agenda ≡ [] }
        ensures opened { IfOk result (λ b.
            in_parts rules.now column.now.setting column.now.state self.old.parts self.old
            ≡ (if b
            then in_agenda rules.now column.now.setting column.now.state
            (in_parts rules.now column.now.setting column.now.state self.new.parts) self.new.agenda self.new
            else record { next = Over; driver = self.new })) }
        ensures fewer { IfOk result (λ b. IsTrue b → length self.new.parts < length self.old.parts) }
        ensures none { IfOk result (λ b. b ≡ false → (self.old.parts ≡ []) × (self.new ≡ self.old)) }
        ensures err { OnErr result (self.new ≡ self.old) }
    {
        let Some(part) = self.parts.first() else {
            return Ok(false);
        };
        if self.put_tasks(part, column).is_err() {
            self.agenda.clear();
            return Err(NoMemory);
        }
        self.parts.drop_first();
        Ok(true)
    }

    /// The tasks of the part are put on the agenda, which has none.
    fn put_tasks(&mut self, part: Part, column: &Column) -> Result<(), NoMemory>
        requires { self.old.agenda ≡ [] }
        ensures ok { OnOk result (self.new ≡ with_agenda (tasks_of column.now.state self.old part) self.old) }
        ensures rest { with_agenda [] self.new ≡ self.old }
    {
        match part {
            Part::Resume => self.agenda.put_attempts(part, &self.callers, column),
            Part::Turns => self.agenda.push(Task::Turns {
                place: 0,
                did: false,
            }),
            Part::Takeovers => self.agenda.put_takeovers(&self.takeovers),
            Part::Late => self.agenda.push(Task::Late),
            Part::Settle => {
                self.agenda.put_open(column)?;
                self.agenda.put_attempts(part, &self.callers, column)
            }
        }
    }

    /// The first step that the tasks name.
    fn next_in_agenda(
        &mut self,
        column: &Column,
        rules: &Rules,
        procs: &Procs,
        size: Size,
    ) -> Result<Option<Step>, NoMemory>
        requires { column.now.setting.faults ≡ size }
        ensures comes { IfOk result (λ step. (end : DriverState → Choice) →
            in_agenda rules.now column.now.setting column.now.state end self.old.agenda self.old ≡ ended step end self.new) }
        ensures rest { IfOk result (λ step. IfNone step (self.new.agenda ≡ [])) }
        ensures err { OnErr result (NamesAlike rules.now column.now.setting column.now.state self.old self.new) }
        ensures parts { IfOk result (λ step. IfNone step (self.new.parts ≡ self.old.parts)) }
        ensures parts_kept { OnErr result (self.new.parts ≡ self.old.parts) }
    {
        while let Some(task) = self.agenda.first() {
            if let Some(step) = self.work_on(task, column, rules, procs, size)? {
                return Ok(Some(step));
            }
        }
        Ok(None)
    }

    /// What comes next at the column.
    #[tactic(auto, using(crate::proofs::StandingLaws::over_again))]
    pub(crate) fn next(
        &mut self,
        column: &Column,
        rules: &Rules,
        procs: &Procs,
        size: Size,
    ) -> Result<Next, NoMemory>
        requires { column.now.setting.faults ≡ size }
        ensures named { IfOk result (λ next.
            choice rules.now column.now.setting column.now.state self.old ≡ record { next = next; driver = self.new }) }
        ensures key { IfOk result (λ next. named_call next ≡ wanted column.now.state.work) }
        ensures over { IfOk result (λ next. IfOver next (
            choice rules.now column.now.setting column.now.state self.new ≡ record { next = Over; driver = self.new })) }
        ensures kept { OnErr result (
            choice rules.now column.now.setting column.now.state self.old
            ≡ choice rules.now column.now.setting column.now.state self.new) }
    {
        if let Some(call) = column.wants() {
            return Ok(Next::Key(call));
        }
        loop {
            if let Some(step) = self.next_in_agenda(column, rules, procs, size)? {
                return Ok(Next::Step(step));
            }
            if !self.open_part(column, rules)? {
                return Ok(Next::Over);
            }
        }
    }
}
