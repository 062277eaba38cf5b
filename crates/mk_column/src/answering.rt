//! Key calls are asked for and answered.
ghost use Rattle.std.specs.Prelude.{◌≡◌, ◌<◌, true, None, Some, OnOk, OnErr, IsSomeAnd};
ghost use Rattle.mk_words.specs.Acts.{answer_fits};
ghost use Rattle.mk_words.specs.declared.Act.TheVariants.{Get};
ghost use Rattle.mk_words.specs.declared.Step.TheVariants.{Key, Read};
ghost use Rattle.mk_model.specs.ColumnState.{attempt_of};
ghost use Rattle.mk_model.specs.Conditions.{blocked as blocked_by, may_read};
ghost use Rattle.mk_model.specs.Steps.{column_after, fetched, answered, is_validating};
ghost use Rattle.mk_column.specs.StepsByCode.{is_at_end};

use crate::KeyCall;
use crate::column::Column;
use crate::replica::finishing;
use crate::work::Work;
use mk_txn::{NoMemory, ReadItem, TxnId};
use mk_words::{Answer, Body, Msg};

impl Column {
    // The attempt asks for the key's value at its replica.
    pub(crate) fn read(&mut self, id: TxnId, key: u32)
        requires { blocked_by self.old.setting self.old.state (Read id key) ≡ None }
        ensures { self.new ≡ record self.old { state = column_after self.old.setting self.old.state (Read id key) } }
    {
        let replica = self.parts.attempts.find(id).unwrap().shown().replica;
        self.parts.work = Work::Fetching { id, replica, key };
    }

    // The wanted key call is answered.
    pub(crate) fn answer_key(&mut self, call: &KeyCall, answer: Answer) -> Result<(), NoMemory>
        requires { blocked_by self.old.setting self.old.state (Key call.now answer) ≡ None }
        ensures ok { OnOk result (self.new ≡ record self.old { state = column_after self.old.setting self.old.state (Key call.now answer) }) }
        ensures err { OnErr result (self.new ≡ self.old) }
    {
        match &self.parts.work {
            Work::Idle => unreachable!(),
            Work::Fetching { id, key, .. } => {
                let (id, key) = (*id, *key);
                self.answer_read(id, key, answer)
            }
            Work::Validating { .. } => self.answer_validation(answer),
            Work::Finishing { .. } => {
                self.answer_finishing(answer);
                Ok(())
            }
        }
    }

    // The value that was asked for is read, which the attempt may do.
    fn answer_read(&mut self, id: TxnId, key: u32, answer: Answer) -> Result<(), NoMemory>
        requires room { IsSomeAnd (attempt_of self.old.state id) (λ a. may_read key a ≡ true) }
        requires fits { answer_fits Get answer ≡ true }
        ensures ok { OnOk result (self.new ≡ record self.old { state = fetched id key answer self.old.state }) }
        ensures err { OnErr result (self.new ≡ self.old) }
    {
        let Answer::Version { version, value } = answer else {
            unreachable!();
        };
        let item = ReadItem {
            key,
            version,
            value,
        };
        self.parts.attempts.read(id, item)?;
        self.parts.work = Work::Idle;
        Ok(())
    }

    // The act of a validation is answered. After the last one the vote is set and sent.
    fn answer_validation(&mut self, answer: Answer) -> Result<(), NoMemory>
        requires { is_validating self.old.state.work ≡ true }
        ensures ok { OnOk result (self.new ≡ record self.old { state = answered answer self.old.state.work self.old.state }) }
        ensures err { OnErr result (self.new ≡ self.old) }
    {
        self.parts.link.reserve(1)?;
        let work = std::mem::replace(&mut self.parts.work, Work::Idle);
        let Work::Validating {
            txn,
            replica,
            epoch,
            state,
        } = work
        else {
            unreachable!();
        };
        let mut state = state;
        state.take(answer);
        let Some(vote) = state.vote() else {
            self.parts.work = Work::Validating {
                txn,
                replica,
                epoch,
                state,
            };
            return Ok(());
        };
        let id = txn.id();
        self.parts.replicas[replica as usize].vote(id, vote);
        let msg = Msg {
            epoch,
            id,
            replica,
            view: 0,
            body: Body::Voted(vote),
        };
        if self.parts.link.send(msg).is_err() {
            unreachable!();
        }
        Ok(())
    }

    // The act of an end at the keys is answered.
    fn answer_finishing(&mut self, answer: Answer)
        requires { is_at_end self.old.state.work ≡ true }
        ensures { self.new ≡ record self.old { state = answered answer self.old.state.work self.old.state } }
    {
        let work = std::mem::replace(&mut self.parts.work, Work::Idle);
        let Work::Finishing { replica, left } = work else {
            unreachable!();
        };
        let mut left = left;
        left.take(answer);
        self.parts.work = finishing(replica, left);
    }
}
