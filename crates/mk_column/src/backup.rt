//! A takeover of an attempt.
ghost use Rattle.std.specs.Prelude.{◌≡◌, ◌<◌, ◌≤◌, true, false};
ghost use Rattle.mk_quorum.specs.Sizes.{members};
ghost use Rattle.mk_words.specs.declared.Pick.TheVariants.{Propose};
ghost use Rattle.mk_words.specs.Picks.{pick as pick_of};
ghost use Rattle.mk_model.specs.Answers.{takeover_answered, state_answered};
ghost use Rattle.mk_model.specs.Steps.{closing, takeover_proposing};
ghost use Rattle.mk_history.specs.Leaving.{left_in_takeover};
ghost use Rattle.mk_column.specs.TakeoversByCode.{backup_begun, on_backup, view_id_of};

use crate::begun::taught_by;
use mk_history::Left;
use mk_quorum::Size;
use mk_takeover::Takeover;
use mk_txn::{Outcome, TxnId};
use mk_words::{Body, Pick};
use std::marker::Model;

/// Which takeover: that of this attempt at this view.
#[derive(Clone, Copy, PartialEq, Eq, Hash)]
pub(crate) struct ViewId {
    pub(crate) id: TxnId,
    pub(crate) view: u32,
}

/// A takeover of an attempt at a view, and whether it is done.
#[derive(Drop)]
pub(crate) struct Backup {
    view_id: ViewId,
    closed: bool,
    takeover: Takeover,
}

impl Model for Backup {
    ghost use Rattle.std.specs.Prelude.{◌≡◌};
    ghost use Rattle.mk_column.specs.TakeoversByCode.{BackupView};

    ghost Value = { BackupView };

    ghost view = { λ backup. record { faults = backup.takeover.faults; of = record { id = backup.view_id.id; closed = backup.closed; state = backup.takeover.state } } };

    ghost invariant = { λ backup. backup.view_id.view ≡ backup.takeover.state.view };
}

impl Backup {
    /// A takeover at this view that has taken nothing.
    pub(crate) fn begin(size: Size, view_id: ViewId) -> Backup
        requires { 1 ≤ view_id.view }
        ensures { result ≡ backup_begun size view_id.id view_id.view }
    {
        Backup {
            view_id,
            closed: false,
            takeover: Takeover::begin(size, view_id.view),
        }
    }

    pub(crate) fn view_id(&self) -> ViewId
        ensures { result ≡ view_id_of self.now }
    {
        self.view_id
    }

    pub(crate) fn is_closed(&self) -> bool
        ensures { result ≡ self.now.of.closed }
    {
        self.closed
    }

    /// What it picks.
    pub(crate) fn pick(&self) -> Pick
        ensures { result ≡ pick_of self.now.faults self.now.of.state }
    {
        self.takeover.decide()
    }

    /// How its attempt stands by it where nobody has learned the outcome.
    pub(crate) fn left(&self) -> Left
        ensures { result ≡ left_in_takeover self.now.faults self.now.of.state self.now.of.state.proposed }
    {
        if self.takeover.proposed().is_some() {
            return Left::Unaccepted(self.takeover.accept_count());
        }
        match self.takeover.decide() {
            Pick::Unclear { ok, not_ok } => Left::Unclear { ok, not_ok },
            _ => Left::Short(self.takeover.promise_count()),
        }
    }

    /// It is done.
    pub(crate) fn close(&mut self)
        ensures { self.new ≡ on_backup closing self.old }
    {
        self.closed = true;
    }

    /// Proposes the outcome that the promises give.
    pub(crate) fn propose(&mut self, outcome: Outcome)
        requires { pick_of self.old.faults self.old.of.state ≡ Propose outcome }
        ensures { self.new ≡ on_backup (takeover_proposing outcome) self.old }
    {
        self.takeover.propose(outcome);
    }

    /// Takes an answer of a replica, unless it is done.
    pub(crate) fn answer(&mut self, replica: u32, body: &Body)
        requires { replica < members self.old.faults }
        ensures { self.new ≡ on_backup (takeover_answered replica body.now) self.old }
    {
        if self.closed {
            return;
        }
        match body {
            Body::Accepted => self.takeover.take_accepted(replica),
            Body::Told(told) => self.takeover.take_told(replica, told),
            Body::Moved(moved) => {
                if let Some(outcome) = taught_by(moved) {
                    self.takeover.learn(outcome);
                }
            }
            Body::Voted(_) => {}
            Body::Validate { .. } => {}
            Body::Accept(_) => {}
            Body::Decide(_) => {}
            Body::Ask => {}
        }
    }
}
