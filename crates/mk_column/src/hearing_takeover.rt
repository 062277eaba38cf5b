//! An answer is heard by a takeover.
ghost use Rattle.std.specs.Prelude.{◌≡◌, ◌<◌, ◌&&◌, ◌==◌, true, false, Some, option_map, is_some, IsSome, IfSome, OnOk, OnErr};
ghost use Rattle.mk_quorum.specs.Sizes.{members};
ghost use Rattle.mk_words.specs.Links.{goes_to_replica};
ghost use Rattle.mk_model.specs.Answers.{is_led as is_led_in, takeover_answered};
ghost use Rattle.mk_column.specs.ColumnByCode.{way_of, lesson_of, lesson_in};
ghost use Rattle.mk_model.specs.ColumnState.{TakeoverOf, takeover_of, change_takeover};
ghost use Rattle.mk_model.specs.Learnings.{by_message, learning, is_finishing};
ghost use Rattle.mk_model.specs.Steps.{with_learning};
ghost use Rattle.mk_column.specs.StepsByCode.{heard_taken};

use crate::backup::ViewId;
use crate::begun::taught_by;
use crate::column::Column;
use crate::learned::{Learned, Way};
use mk_txn::{NoMemory, Outcome, TxnId};
use mk_words::{Body, Msg};

impl Column {
    // An answer in a view above 0 goes to that view's takeover.
    pub(crate) fn answer_takeover(&mut self, msg: &Msg) -> Result<(), NoMemory>
        requires replica { msg.now.replica < members self.old.setting.faults }
        requires view { (msg.now.view == 0) ≡ false }
        requires goes { goes_to_replica msg.now.body ≡ false }
        ensures ok { OnOk result (self.new ≡ record self.old { state = heard_taken self.old.setting msg.now self.old.state }) }
        ensures err { OnErr result (self.new ≡ self.old) }
    {
        if !self.is_heard_at(msg) {
            return Ok(());
        }
        if let Some((outcome, way)) = self.lesson(msg) {
            let view_id = ViewId {
                id: msg.id,
                view: msg.view,
            };
            self.learn_heard(view_id, outcome, way)?;
        }
        self.hear_at(msg);
        Ok(())
    }

    // Whether the takeover of the message's view is there and led.
    fn is_heard_at(&self, msg: &Msg) -> bool
        ensures { result ≡ (is_led_in self.now.setting msg.now.epoch msg.now.view && is_some (takeover_of self.now.state msg.now.id msg.now.view)) }
    {
        self.is_led(msg.epoch, msg.view) && self.backup(msg.id, msg.view).is_some()
    }

    // What the takeover of the message's view learns by it, where it is led.
    fn lesson(&self, msg: &Msg) -> Option<(Outcome, Way)>
        requires view { (msg.now.view == 0) ≡ false }
        requires goes { goes_to_replica msg.now.body ≡ false }
        requires led { (is_led_in self.now.setting msg.now.epoch msg.now.view && is_some (takeover_of self.now.state msg.now.id msg.now.view)) ≡ true }
        ensures list { lesson_of msg.now.id result ≡ by_message self.now.setting self.now.state msg.now msg.now.body }
        ensures way { IfSome result (λ lesson. is_finishing (way_of lesson.1) ≡ false) }
    {
        if self.is_closed(msg.id, msg.view) {
            return None;
        }
        lesson(&msg.body)
    }

    // Whether the takeover is done.
    fn is_closed(&self, id: TxnId, view: u32) -> bool
        requires { IsSome (takeover_of self.now.state id view) }
        ensures { option_map (λ (t : TakeoverOf). t.closed) (takeover_of self.now.state id view) ≡ Some result }
    {
        self.backup(id, view).unwrap().is_closed()
    }

    // The takeover, which is there, learns the outcome in this way, which is not by finishing.
    fn learn_heard(&mut self, view_id: ViewId, outcome: Outcome, way: Way) -> Result<(), NoMemory>
        requires there { IsSome (takeover_of self.old.state view_id.id view_id.view) }
        requires way { is_finishing (way_of way) ≡ false }
        ensures ok { OnOk result (self.new ≡ record self.old { state = with_learning (learning view_id.id (way_of way) outcome) self.old.state }) }
        ensures err { OnErr result (self.new ≡ self.old) }
    {
        let id = view_id.id;
        self.parts.learned.push(Learned { id, outcome, way })?;
        self.parts.attempts.decide(id, outcome);
        Ok(())
    }

    // The takeover of the message's view, which is there, takes it.
    fn hear_at(&mut self, msg: &Msg)
        requires replica { msg.now.replica < members self.old.setting.faults }
        requires there { IsSome (takeover_of self.old.state msg.now.id msg.now.view) }
        ensures { self.new ≡ record self.old { state = change_takeover msg.now.id msg.now.view (takeover_answered msg.now.replica msg.now.body) self.old.state } }
    {
        let view_id = ViewId {
            id: msg.id,
            view: msg.view,
        };
        self.parts.takeovers.answer(view_id, msg.replica, &msg.body);
    }
}

// What an answer teaches.
fn lesson(body: &Body) -> Option<(Outcome, Way)>
    ensures { result ≡ lesson_in body.now }
{
    match body {
        Body::Told(told) => match told.last {
            Some(outcome) => Some((outcome, Way::Telling)),
            None => None,
        },
        Body::Moved(moved) => match taught_by(moved) {
            Some(outcome) => Some((outcome, Way::Moved(moved.to))),
            None => None,
        },
        Body::Voted(_) => None,
        Body::Accepted => None,
        Body::Validate { .. } => None,
        Body::Accept(_) => None,
        Body::Decide(_) => None,
        Body::Ask => None,
    }
}
