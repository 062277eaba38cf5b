//! A step of a column: it is done where it is enabled, and logged.
ghost use Rattle.std.specs.Prelude.{◌≡◌, ◌∷◌, ◌++◌, [], None, OnOk, OnErr, IfErr};
ghost use Rattle.mk_model.specs.Conditions.{blocked as blocked_by};
ghost use Rattle.mk_column.specs.Conditions.{error_of};
ghost use Rattle.mk_model.specs.Steps.{column_after};
ghost use Rattle.mk_column.specs.Growing.{HasGrown, ReadsUnstamped};

use crate::column::Column;
use crate::{ColumnError, Step};
use mk_txn::NoMemory;
use std::alloc::Global;

impl Column {
    /// Does the step where it is enabled, and logs it. Without memory the column is as it was: room is taken before
    /// anything changes, but for an Unread, whose attempt is taken out again where its place finds no room.
    pub fn step(&mut self, step: Step) -> Result<(), ColumnError>
        ensures enabled { OnOk result (blocked_by self.old.setting self.old.state step ≡ None) }
        ensures ok { OnOk result (self.new ≡ record self.old { state = column_after self.old.setting self.old.state step; log = self.old.log ++ step ∷ [] }) }
        ensures grown { OnOk result (HasGrown self.old self.new) }
        ensures refused { IfErr result (λ error. error ≡ error_of (blocked_by self.old.setting self.old.state step)) }
        ensures err { OnErr result (self.new ≡ self.old) }
    {
        if let Some(number) = self.blocked(&step) {
            return Err(ColumnError::NotEnabled(number));
        }
        self.do_and_log(step)?;
        Ok(())
    }

    // Does the step, which is enabled, and logs it.
    fn do_and_log(&mut self, step: Step) -> Result<(), NoMemory>
        requires { blocked_by self.old.setting self.old.state step ≡ None }
        ensures ok { OnOk result (self.new ≡ record self.old { state = column_after self.old.setting self.old.state step; log = self.old.log ++ step ∷ [] }) }
        ensures unstamped { OnOk result (ReadsUnstamped self.old.state) }
        ensures err { OnErr result (self.new ≡ self.old) }
    {
        self.log.reserve(1)?;
        let alloc: Global = *self.log.allocator();
        let mut log = std::mem::replace(&mut self.log, Vec::new(alloc));
        let done = self.act(&step);
        if done.is_ok() && log.push(step).is_err() {
            unreachable!();
        }
        self.log = log;
        done
    }

    // Does the step, which is enabled.
    fn act(&mut self, step: &Step) -> Result<(), NoMemory>
        requires { blocked_by self.old.setting self.old.state step.now ≡ None }
        ensures ok { OnOk result (self.new ≡ record self.old { state = column_after self.old.setting self.old.state step.now }) }
        ensures err { OnErr result (self.new ≡ self.old) }
    {
        match step {
            Step::Begin { client, replica } => self.begin(*client, *replica),
            Step::Unread { client } => self.begin_unread(*client),
            Step::Read { id, key } => {
                self.read(*id, *key);
                Ok(())
            }
            Step::Stamp { id, clock, writes } => self.stamp(*id, *clock, writes),
            Step::Validate { id } => self.validate(*id),
            Step::Take { number } => self.take(*number),
            Step::Key { call, answer } => self.answer_key(call, *answer),
            Step::Rule { id } => self.rule(*id),
            Step::Again { id } => self.again(*id),
            Step::Takeover { id, view } => self.take_over(*id, *view),
            Step::Pick { id, view } => self.pick(*id, *view),
            Step::Stop { id } => {
                self.stop(*id);
                Ok(())
            }
        }
    }
}
