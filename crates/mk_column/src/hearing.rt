//! An answer is taken by the own coordinator.
ghost use Rattle.std.specs.Prelude.{◌≡◌, ◌<◌, ◌==◌, true, false, OnOk, OnErr, IsSome};
ghost use Rattle.mk_quorum.specs.Sizes.{members};
ghost use Rattle.mk_words.specs.Links.{goes_to_replica};
ghost use Rattle.mk_model.specs.ColumnState.{attempt_of, change_attempt, change_client};
ghost use Rattle.mk_model.specs.ColumnState.Way.{ByMoved};
ghost use Rattle.mk_column.specs.ColumnByCode.{way_of};
ghost use Rattle.mk_column.specs.ClientsByCode.{client_heard};
ghost use Rattle.mk_model.specs.Answers.{listens as listens_in, attempt_answered, moved_outcome};
ghost use Rattle.mk_model.specs.Learnings.{learning, is_finishing};
ghost use Rattle.mk_model.specs.Steps.{taught, with_learning};
ghost use Rattle.mk_column.specs.StepsByCode.{taught_in, heard_at, heard_taken, counts};

use crate::begun::taught_by;
use crate::clients::Client;
use crate::column::Column;
use crate::learned::{Learned, Way, learn_own};
use mk_txn::{NoMemory, Outcome, TxnId};
use mk_words::{Body, Moved, Msg};

impl Column {
    // Whether the own coordinator takes answers.
    fn listens(&self, id: TxnId) -> bool
        ensures { result ≡ listens_in (attempt_of self.now.state id) }
    {
        match self.begun(id) {
            Some(begun) => !(begun.shown().stopped || begun.shown().learned.is_some()),
            None => false,
        }
    }

    // The own coordinator learns the outcome in this way, which is not by finishing. The first one stays.
    fn teach(&mut self, id: TxnId, outcome: Outcome, way: Way) -> Result<(), NoMemory>
        requires there { IsSome (attempt_of self.old.state id) }
        requires way { is_finishing (way_of way) ≡ false }
        ensures ok { OnOk result (self.new ≡ record self.old { state = with_learning (learning id (way_of way) outcome) (change_attempt id (taught outcome) self.old.state) }) }
        ensures err { OnErr result (self.new ≡ self.old) }
    {
        let lesson = Learned { id, outcome, way };
        learn_own(
            &mut self.parts.attempts,
            &mut self.settled,
            &mut self.parts.learned,
            lesson,
        )?;
        Ok(())
    }

    // The own coordinator learns the outcome, where there is one.
    fn teach_where(&mut self, id: TxnId, outcome: Option<Outcome>, way: Way) -> Result<(), NoMemory>
        requires there { IsSome (attempt_of self.old.state id) }
        requires way { is_finishing (way_of way) ≡ false }
        ensures ok { OnOk result (self.new ≡ record self.old { state = taught_in id (way_of way) outcome self.old.state }) }
        ensures err { OnErr result (self.new ≡ self.old) }
    {
        match outcome {
            Some(outcome) => self.teach(id, outcome, way),
            None => Ok(()),
        }
    }

    // The own coordinator counts a vote or an accept.
    fn count(&mut self, id: TxnId, replica: u32, body: &Body)
        requires there { IsSome (attempt_of self.old.state id) }
        requires replica { replica < members self.old.setting.faults }
        requires counts { counts body.now ≡ true }
        ensures { self.new ≡ record self.old { state = change_attempt id (attempt_answered replica body.now) self.old.state } }
    {
        self.parts.attempts.answer(id, replica, body);
    }

    // The client hears of the epoch.
    fn hear(&mut self, number: u32, epoch: u32)
        ensures { self.new ≡ record self.old { state = change_client number (heard_at epoch) self.old.state } }
    {
        let Some(client) = self.parts.clients.find(number) else {
            return;
        };
        let after = after_hearing(client, epoch);
        self.parts.clients.put(after);
    }

    // A replica of a later epoch answered.
    fn own_moved(&mut self, id: TxnId, moved: &Moved) -> Result<(), NoMemory>
        requires { IsSome (attempt_of self.old.state id) }
        ensures ok { OnOk result (self.new ≡ record self.old { state = change_client id.client (heard_at moved.now.to) (taught_in id (ByMoved moved.now.to) (moved_outcome moved.now) self.old.state) }) }
        ensures err { OnErr result (self.new ≡ self.old) }
    {
        self.teach_where(id, taught_by(moved), Way::Moved(moved.to))?;
        self.hear(id.client, moved.to);
        Ok(())
    }

    // An answer in view 0 goes to the own coordinator, which may be stopped or done.
    pub(crate) fn answer_own(&mut self, msg: &Msg) -> Result<(), NoMemory>
        requires replica { msg.now.replica < members self.old.setting.faults }
        requires view { (msg.now.view == 0) ≡ true }
        requires goes { goes_to_replica msg.now.body ≡ false }
        ensures ok { OnOk result (self.new ≡ record self.old { state = heard_taken self.old.setting msg.now self.old.state }) }
        ensures err { OnErr result (self.new ≡ self.old) }
    {
        if !self.listens(msg.id) {
            return Ok(());
        }
        match &msg.body {
            Body::Told(told) => self.teach_where(msg.id, told.last, Way::Telling),
            Body::Moved(moved) => self.own_moved(msg.id, moved),
            Body::Voted(_) => {
                self.count(msg.id, msg.replica, &msg.body);
                Ok(())
            }
            Body::Accepted => {
                self.count(msg.id, msg.replica, &msg.body);
                Ok(())
            }
            Body::Validate { .. } => unreachable!(),
            Body::Accept(_) => unreachable!(),
            Body::Decide(_) => unreachable!(),
            Body::Ask => unreachable!(),
        }
    }
}

// The client once it has heard of the epoch.
fn after_hearing(client: &Client, epoch: u32) -> Client
    ensures { result ≡ client_heard epoch client.now }
{
    Client {
        number: client.number,
        last_time: client.last_time,
        next_seq: client.next_seq,
        heard: client.heard.max(epoch),
        reading: client.reading,
    }
}
