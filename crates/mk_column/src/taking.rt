//! A message is taken.
ghost use Rattle.std.specs.Prelude.{◌≡◌, ◌<◌, ◌≤◌, ◌++◌, true, None, OnOk, OnErr, is_some, vec_len, vec_capacity, slice_get};
ghost use Rattle.mk_quorum.specs.Sizes.{members};
ghost use Rattle.mk_words.specs.Entries.{entry_of};
ghost use Rattle.mk_words.specs.Links.{goes_to_replica as goes_to_replica_of};
ghost use Rattle.mk_model.specs.ColumnState.{entries_at};
ghost use Rattle.mk_column.specs.ColumnByCode.{finish_kept};
ghost use Rattle.mk_words.specs.declared.Step.TheVariants.{Take};
ghost use Rattle.mk_model.specs.Conditions.{is_idle, blocked as blocked_by};
ghost use Rattle.mk_column.specs.HeldByCode.{sent_of};
ghost use Rattle.mk_model.specs.Learnings.{txn_of, is_final as is_final_entry, is_finished_by as finishes_in};
ghost use Rattle.mk_column.specs.StepsByCode.{finished_by};
ghost use Rattle.mk_model.specs.Replicas.{serves as serves_epoch};
ghost use Rattle.mk_model.specs.Steps.{column_after};
ghost use Rattle.mk_column.specs.StepsByCode.{delivered};

use crate::column::Column;
use crate::conditions::serves;
use crate::learned::{Learned, Way};
use mk_msg::Link;
use mk_txn::{NoMemory, Outcome, TxnId};
use mk_words::{Body, Msg};

impl Column {
    // Whether the attempt is stamped.
    fn has_txn(&self, id: TxnId) -> bool
        ensures { result ≡ is_some (txn_of self.now.state id) }
    {
        match self.begun(id) {
            Some(begun) => begun.shown().txn.is_some(),
            None => false,
        }
    }

    // Whether the replica serves the epoch.
    fn is_served(&self, replica: u32, epoch: u32) -> bool
        ensures { result ≡ serves_epoch epoch (slice_get self.now.setting.views replica) }
    {
        match self.views.get(replica as usize) {
            Some(view) => serves(view, epoch),
            None => false,
        }
    }

    // Whether the replica's entry of the attempt is final.
    fn is_final(&self, replica: u32, id: TxnId) -> bool
        requires { replica < members self.now.setting.faults }
        ensures { result ≡ is_final_entry (entry_of id (entries_at self.now.state replica)) }
    {
        match self.parts.replicas[replica as usize].find(id) {
            Some(entry) => entry.last.is_some(),
            None => false,
        }
    }

    // Whether a Decide that is this message makes an entry final.
    fn is_finished_by(&self, msg: &Msg) -> bool
        requires { msg.now.replica < members self.now.setting.faults }
        ensures { result ≡ finishes_in self.now.setting self.now.state msg.now }
    {
        self.is_served(msg.replica, msg.epoch)
            && self.has_txn(msg.id)
            && !self.is_final(msg.replica, msg.id)
    }

    // The outcome with which the message's replica finishes by it.
    fn finishes(&self, msg: &Msg) -> Option<Outcome>
        requires { msg.now.replica < members self.now.setting.faults }
        ensures { result ≡ finished_by self.now.setting self.now.state msg.now msg.now.body }
    {
        let Body::Decide(outcome) = msg.body else {
            return None;
        };
        if self.is_finished_by(msg) {
            Some(outcome)
        } else {
            None
        }
    }

    // The message of this number is taken.
    pub(crate) fn take(&mut self, number: u64) -> Result<(), NoMemory>
        requires { blocked_by self.old.setting self.old.state (Take number) ≡ None }
        ensures ok { OnOk result (self.new ≡ record self.old { state = column_after self.old.setting self.old.state (Take number) }) }
        ensures err { OnErr result (self.new ≡ self.old) }
    {
        let msg = *self.parts.link.get(number).unwrap();
        if goes_to_replica(&msg.body) {
            self.deliver(&msg)
        } else if msg.view == 0 {
            self.answer_own(&msg)
        } else {
            self.answer_takeover(&msg)
        }
    }

    // A message is taken by its replica, which may answer, begin key calls and finish.
    pub(crate) fn deliver(&mut self, msg: &Msg) -> Result<(), NoMemory>
        requires replica { msg.now.replica < members self.old.setting.faults }
        requires idle { is_idle self.old.state.work ≡ true }
        requires goes { goes_to_replica_of msg.now.body ≡ true }
        ensures ok { OnOk result (self.new ≡ record self.old { state = delivered self.old.setting msg.now self.old.state }) }
        ensures err { OnErr result (self.new ≡ self.old) }
    {
        let finished = self.finishes(msg);
        let alloc = *self.log.allocator();
        let Some(view) = self.views.get(msg.replica as usize) else {
            return Ok(());
        };
        let Some(txn) = self.parts.attempts.txn(msg.id) else {
            return Ok(());
        };
        self.parts.link.reserve(1)?;
        self.parts.learned.reserve(1)?;
        let reaction = self.parts.replicas[msg.replica as usize].take(alloc, txn, msg, view)?;
        self.parts.work = reaction.work;
        send_answer(&mut self.parts.link, msg, reaction.answer);
        learn_finish(&mut self.parts.learned, msg.id, finished);
        Ok(())
    }
}

// Whether a replica takes it.
fn goes_to_replica(body: &Body) -> bool
    ensures { result ≡ goes_to_replica_of body.now }
{
    match body {
        Body::Validate { .. } | Body::Accept(_) | Body::Decide(_) | Body::Ask => true,
        Body::Voted(_) | Body::Accepted | Body::Told(_) | Body::Moved(_) => false,
    }
}

// Sends the answer to the message, where there is one. There must be room.
fn send_answer(link: &mut Link, msg: &Msg, answer: Option<Body>)
    requires { 1 ≤ link.old.spare }
    ensures { link.new.messages ≡ link.old.messages ++ sent_of msg.now answer }
{
    let Some(body) = answer else {
        return;
    };
    let msg = Msg { body, ..*msg };
    if link.send(msg).is_err() {
        unreachable!();
    }
}

// Keeps that a replica finished, where it did. There must be room.
fn learn_finish(learned: &mut Vec<Learned>, id: TxnId, finished: Option<Outcome>)
    requires { vec_len learned.old < vec_capacity learned.old }
    ensures { learned.new.items ≡ learned.old.items ++ finish_kept id finished }
{
    let Some(outcome) = finished else {
        return;
    };
    let way = Way::Finishing;
    if learned.push(Learned { id, outcome, way }).is_err() {
        unreachable!();
    }
}
