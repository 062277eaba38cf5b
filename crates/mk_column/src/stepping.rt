//! The steps of a column.
ghost use Rattle.std.specs.Prelude.{◌≡◌, ◌≤◌, ◌∷◌, ◌++◌, [], None, Some, false, option_map, IsSome, IsSomeAnd, OnOk, OnErr};
ghost use Rattle.mk_words.specs.declared.Step.TheVariants.{Stop, Again, Rule, Takeover, Pick as PickStep, Validate as ValidateStep};
ghost use Rattle.mk_model.specs.Conditions.{blocked as blocked_by};
ghost use Rattle.mk_model.specs.Steps.{closing, column_after, proposing, takeover_proposing, taught, with_learning};
ghost use Rattle.mk_model.specs.ColumnState.{TakeoverOf, attempt_of, takeover_of, change_attempt, change_takeover, mark_sent, send, to_all};
ghost use Rattle.mk_words.specs.declared.Body.TheVariants.{Validate as ValidateBody, Decide, Ask};
ghost use Rattle.mk_words.specs.declared.MsgKind.TheVariants.{Validate};
ghost use Rattle.mk_words.specs.Links.{kind_of};
ghost use Rattle.mk_words.specs.Rulings.{ruling as ruling_of};
ghost use Rattle.mk_words.specs.declared.Ruling.TheVariants.{Propose as ToPropose};
ghost use Rattle.mk_words.specs.Picks.{pick as pick_of};
ghost use Rattle.mk_words.specs.declared.Pick.TheVariants.{Propose as PicksToPropose};
ghost use Rattle.mk_column.specs.TakeoversByCode.{backup_begun};
ghost use Rattle.mk_model.specs.Learnings.{learning, is_finishing};
ghost use Rattle.mk_column.specs.ColumnByCode.{way_of};

use crate::backup::{Backup, ViewId};
use crate::column::Column;
use crate::learned::{Learned, Way, learn_own};
use crate::sending::send_to_all;
use mk_txn::{NoMemory, Outcome, TxnId};
use mk_words::{Body, Pick, Ruling};

impl Column {
    // The own coordinator stops for good.
    pub(crate) fn stop(&mut self, id: TxnId)
        requires { blocked_by self.old.setting self.old.state (Stop id) ≡ None }
        ensures { self.new ≡ record self.old { state = column_after self.old.setting self.old.state (Stop id) } }
    {
        self.parts.attempts.stop(id);
    }

    // The mark that goes with a Validate of this client's.
    fn mark_to_send(&self, client: u32) -> u32
        ensures { result ≡ mark_sent self.now.setting self.now.state client }
    {
        if self.version == 2 {
            self.settled.mark(client)
        } else {
            0
        }
    }

    // Sends this body, which is not a Validate, to each replica.
    fn send(&mut self, epoch: u32, id: TxnId, view: u32, body: Body) -> Result<(), NoMemory>
        requires { kind_of body ≡ Validate → ⊥ }
        ensures ok { OnOk result (self.new ≡ record self.old { state = send (to_all self.old.setting.faults epoch id view body) self.old.state }) }
        ensures err { OnErr result (self.new ≡ self.old) }
    {
        self.parts.link.reserve(self.size.n())?;
        send_to_all(&mut self.parts.link, self.size, epoch, id, view, body);
        Ok(())
    }

    // A Validate with this mark is sent to each replica.
    fn send_validate(&mut self, epoch: u32, id: TxnId, mark: u32) -> Result<(), NoMemory>
        requires { IsSome (attempt_of self.old.state id) }
        ensures ok { OnOk result (self.new ≡ record self.old { state = send (to_all self.old.setting.faults epoch id 0 (ValidateBody mark)) self.old.state }) }
        ensures err { OnErr result (self.new ≡ self.old) }
    {
        self.parts.link.reserve(self.size.n())?;
        let body = Body::Validate { mark };
        send_to_all(&mut self.parts.link, self.size, epoch, id, 0, body);
        self.parts.attempts.validate(id);
        Ok(())
    }

    // The own coordinator proposes what its ruling says.
    fn propose(&mut self, id: TxnId, outcome: Outcome)
        requires { IsSomeAnd (attempt_of self.old.state id) (λ a. ruling_of self.old.setting.faults a.coord ≡ ToPropose outcome) }
        ensures { self.new ≡ record self.old { state = change_attempt id (proposing outcome) self.old.state } }
    {
        self.parts.attempts.propose(id, outcome);
    }

    // The own coordinator learns the outcome in this way, which is not by finishing, and tells all replicas.
    fn learn(&mut self, epoch: u32, id: TxnId, outcome: Outcome, way: Way) -> Result<(), NoMemory>
        requires there { IsSome (attempt_of self.old.state id) }
        requires way { is_finishing (way_of way) ≡ false }
        ensures ok { OnOk result (self.new ≡ record self.old { state = send (to_all self.old.setting.faults epoch id 0 (Decide outcome)) (with_learning (learning id (way_of way) outcome) (change_attempt id (taught outcome) self.old.state)) }) }
        ensures err { OnErr result (self.new ≡ self.old) }
    {
        self.parts.link.reserve(self.size.n())?;
        let lesson = Learned { id, outcome, way };
        learn_own(
            &mut self.parts.attempts,
            &mut self.settled,
            &mut self.parts.learned,
            lesson,
        )?;
        let body = Body::Decide(outcome);
        send_to_all(&mut self.parts.link, self.size, epoch, id, 0, body);
        Ok(())
    }

    // What the takeover picks.
    fn picked(&self, view_id: ViewId) -> Pick
        requires { IsSome (takeover_of self.now.state view_id.id view_id.view) }
        ensures { option_map (λ (t : TakeoverOf). pick_of self.now.setting.faults t.state) (takeover_of self.now.state view_id.id view_id.view) ≡ Some result }
    {
        match self.parts.takeovers.find(view_id) {
            Some(backup) => backup.pick(),
            None => unreachable!(),
        }
    }

    // The takeover proposes what it picks.
    fn propose_at(&mut self, view_id: ViewId, outcome: Outcome)
        requires { IsSomeAnd (takeover_of self.old.state view_id.id view_id.view) (λ t. pick_of self.old.setting.faults t.state ≡ PicksToPropose outcome) }
        ensures { self.new ≡ record self.old { state = change_takeover view_id.id view_id.view (takeover_proposing outcome) self.old.state } }
    {
        self.parts.takeovers.propose(view_id, outcome);
    }

    // The takeover makes the outcome known, which is learned in this way, and tells all replicas.
    fn learn_at(
        &mut self,
        epoch: u32,
        view_id: ViewId,
        outcome: Outcome,
        way: Way,
    ) -> Result<(), NoMemory>
        requires there { IsSome (takeover_of self.old.state view_id.id view_id.view) }
        requires known { IsSome (attempt_of self.old.state view_id.id) }
        requires way { is_finishing (way_of way) ≡ false }
        ensures ok { OnOk result (self.new ≡ record self.old { state = send (to_all self.old.setting.faults epoch view_id.id view_id.view (Decide outcome)) (with_learning (learning view_id.id (way_of way) outcome) (change_takeover view_id.id view_id.view closing self.old.state)) }) }
        ensures err { OnErr result (self.new ≡ self.old) }
    {
        self.parts.link.reserve(self.size.n())?;
        self.parts.learned.reserve(1)?;
        let ViewId { id, view } = view_id;
        self.parts.takeovers.close(view_id);
        self.parts.attempts.decide(id, outcome);
        if self
            .parts
            .learned
            .push(Learned { id, outcome, way })
            .is_err()
        {
            unreachable!();
        }
        let body = Body::Decide(outcome);
        send_to_all(&mut self.parts.link, self.size, epoch, id, view, body);
        Ok(())
    }

    // A takeover begins, and asks all replicas.
    fn begin_takeover(&mut self, epoch: u32, view_id: ViewId) -> Result<(), NoMemory>
        requires known { IsSome (attempt_of self.old.state view_id.id) }
        requires none { takeover_of self.old.state view_id.id view_id.view ≡ None }
        requires view { 1 ≤ view_id.view }
        ensures ok { OnOk result (self.new ≡ record self.old { state = send (to_all self.old.setting.faults epoch view_id.id view_id.view Ask) (record self.old.state { takeovers = self.old.state.takeovers ++ (backup_begun self.old.setting.faults view_id.id view_id.view).of ∷ [] }) }) }
        ensures err { OnErr result (self.new ≡ self.old) }
    {
        self.parts.link.reserve(self.size.n())?;
        self.parts
            .takeovers
            .push(Backup::begin(self.size, view_id))?;
        let ViewId { id, view } = view_id;
        send_to_all(&mut self.parts.link, self.size, epoch, id, view, Body::Ask);
        Ok(())
    }

    // The proposal is sent again.
    pub(crate) fn again(&mut self, id: TxnId) -> Result<(), NoMemory>
        requires { blocked_by self.old.setting self.old.state (Again id) ≡ None }
        ensures ok { OnOk result (self.new ≡ record self.old { state = column_after self.old.setting self.old.state (Again id) }) }
        ensures err { OnErr result (self.new ≡ self.old) }
    {
        let attempt = self.attempt(id).unwrap();
        let epoch = attempt.epoch;
        let outcome = attempt.proposed.unwrap();
        self.send(epoch, id, 0, Body::Accept(outcome))
    }

    // A Validate is sent to all replicas.
    pub(crate) fn validate(&mut self, id: TxnId) -> Result<(), NoMemory>
        requires { blocked_by self.old.setting self.old.state (ValidateStep id) ≡ None }
        ensures ok { OnOk result (self.new ≡ record self.old { state = column_after self.old.setting self.old.state (ValidateStep id) }) }
        ensures err { OnErr result (self.new ≡ self.old) }
    {
        let epoch = self.attempt(id).unwrap().epoch;
        let mark = self.mark_to_send(id.client);
        self.send_validate(epoch, id, mark)
    }

    // The own coordinator does what its ruling says.
    pub(crate) fn rule(&mut self, id: TxnId) -> Result<(), NoMemory>
        requires { blocked_by self.old.setting self.old.state (Rule id) ≡ None }
        ensures ok { OnOk result (self.new ≡ record self.old { state = column_after self.old.setting self.old.state (Rule id) }) }
        ensures err { OnErr result (self.new ≡ self.old) }
    {
        let epoch = self.attempt(id).unwrap().epoch;
        match self.ruling(id) {
            Ruling::Fast(outcome) => self.learn(epoch, id, outcome, Way::Votes),
            Ruling::Learned(outcome) => self.learn(epoch, id, outcome, Way::Accepts),
            Ruling::Propose(outcome) => {
                self.send(epoch, id, 0, Body::Accept(outcome))?;
                self.propose(id, outcome);
                Ok(())
            }
            Ruling::Short(_) => Ok(()),
            Ruling::Unaccepted(_) => Ok(()),
        }
    }

    // A takeover of the attempt begins at this view.
    pub(crate) fn take_over(&mut self, id: TxnId, view: u32) -> Result<(), NoMemory>
        requires { blocked_by self.old.setting self.old.state (Takeover id view) ≡ None }
        ensures ok { OnOk result (self.new ≡ record self.old { state = column_after self.old.setting self.old.state (Takeover id view) }) }
        ensures err { OnErr result (self.new ≡ self.old) }
    {
        let epoch = self.attempt(id).unwrap().epoch;
        self.begin_takeover(epoch, ViewId { id, view })
    }

    // The takeover at this view does what its pick says.
    pub(crate) fn pick(&mut self, id: TxnId, view: u32) -> Result<(), NoMemory>
        requires { blocked_by self.old.setting self.old.state (PickStep id view) ≡ None }
        ensures ok { OnOk result (self.new ≡ record self.old { state = column_after self.old.setting self.old.state (PickStep id view) }) }
        ensures err { OnErr result (self.new ≡ self.old) }
    {
        let epoch = self.attempt(id).unwrap().epoch;
        let view_id = ViewId { id, view };
        match self.picked(view_id) {
            Pick::Known(outcome) => self.learn_at(epoch, view_id, outcome, Way::Telling),
            Pick::Learned(outcome) => self.learn_at(epoch, view_id, outcome, Way::Pick(view)),
            Pick::Propose(outcome) => {
                self.send(epoch, id, view, Body::Accept(outcome))?;
                self.propose_at(view_id, outcome);
                Ok(())
            }
            Pick::Short(_) => Ok(()),
            Pick::Unaccepted(_) => Ok(()),
            Pick::Unclear { .. } => Ok(()),
        }
    }
}
