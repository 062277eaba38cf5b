//! Settling attempts and takeovers, what a later round begins with, and takeover lines.
ghost use Rattle.std.specs.Prelude.{◌≡◌, IfOk, OnErr};
ghost use Rattle.mk_driver.specs.Settling.{settling, settling_takeover, taking_over, resuming};
ghost use Rattle.mk_driver.specs.Passing.{ComesTo, IsDone, without_first};

use crate::views::sent;
use crate::{DriverState, Task};
use mk_column::Column;
use mk_txn::{NoMemory, TxnId};
use mk_words::Step;

impl DriverState {
    /// Rule as long as it is enabled.
    pub(crate) fn settle(&mut self, id: TxnId, column: &Column) -> Result<Option<Step>, NoMemory>
        ensures comes { IfOk result (λ step. ComesTo (settling column.now.setting column.now.state id (without_first self.old)) step self.new) }
        ensures rest { IfOk result (λ step. IsDone self.old step self.new) }
        ensures err { OnErr result (self.new ≡ self.old) }
    {
        let step = Step::Rule { id };
        match column.blocked(&step) {
            None => {
                let sent = sent(column);
                self.agenda.put_three(
                    Task::Notice { id },
                    Task::DeliverSince { sent },
                    Task::Settle { id },
                )?;
                Ok(Some(step))
            }
            Some(_) => {
                self.agenda.drop_first();
                Ok(None)
            }
        }
    }

    /// Pick as long as it is enabled.
    pub(crate) fn settle_takeover(
        &mut self,
        id: TxnId,
        view: u32,
        column: &Column,
    ) -> Result<Option<Step>, NoMemory>
        ensures comes { IfOk result (λ step. ComesTo (settling_takeover column.now.setting column.now.state id view (without_first self.old)) step self.new) }
        ensures rest { IfOk result (λ step. IsDone self.old step self.new) }
        ensures err { OnErr result (self.new ≡ self.old) }
    {
        let step = Step::Pick { id, view };
        match column.blocked(&step) {
            None => {
                let sent = sent(column);
                self.agenda.put_two(
                    Task::DeliverSince { sent },
                    Task::SettleTakeover { id, view },
                )?;
                Ok(Some(step))
            }
            Some(_) => {
                self.agenda.drop_first();
                Ok(None)
            }
        }
    }

    /// A takeover line, which is passed over where its step is not enabled.
    pub(crate) fn take_over(
        &mut self,
        id: TxnId,
        view: u32,
        column: &Column,
    ) -> Result<Option<Step>, NoMemory>
        ensures comes { IfOk result (λ step. ComesTo (taking_over column.now.setting column.now.state id view (without_first self.old)) step self.new) }
        ensures rest { IfOk result (λ step. IsDone self.old step self.new) }
        ensures err { OnErr result (self.new ≡ self.old) }
    {
        let step = Step::Takeover { id, view };
        match column.blocked(&step) {
            None => {
                let sent = sent(column);
                self.agenda.put_two(
                    Task::DeliverSince { sent },
                    Task::SettleTakeover { id, view },
                )?;
                Ok(Some(step))
            }
            Some(_) => {
                self.agenda.drop_first();
                Ok(None)
            }
        }
    }

    /// Again where the attempt has proposed, else Validate, if it goes on at all.
    pub(crate) fn resume(&mut self, id: TxnId, column: &Column) -> Result<Option<Step>, NoMemory>
        ensures comes { IfOk result (λ step. ComesTo (resuming column.now.state id (without_first self.old)) step self.new) }
        ensures rest { IfOk result (λ step. IsDone self.old step self.new) }
        ensures err { OnErr result (self.new ≡ self.old) }
    {
        let Some(attempt) = column.attempt(id) else {
            self.agenda.drop_first();
            return Ok(None);
        };
        if !column.is_validated(id) || attempt.stopped || attempt.learned.is_some() {
            self.agenda.drop_first();
            return Ok(None);
        }
        let sent = sent(column);
        self.agenda
            .put_two(Task::DeliverSince { sent }, Task::Settle { id })?;
        match attempt.proposed {
            Some(_) => Ok(Some(Step::Again { id })),
            None => Ok(Some(Step::Validate { id })),
        }
    }
}
