//! An attempt with its own coordinator.
ghost use Rattle.std.specs.Prelude.{◌≡◌, ◌<◌, ◌≤◌, ◌^◌, nat_lt, ◌∷◌, ◌++◌, [], true, false, Some, None, OnOk, OnErr};
ghost use Rattle.std.specs.Option.{option_or};
ghost use Rattle.std.specs.List.{list_any};
ghost use Rattle.mk_txn.specs.Stamps.{next_stamp_of};
ghost use Rattle.mk_quorum.specs.Sizes.{members};
ghost use Rattle.mk_words.specs.declared.Ruling.TheVariants.{Propose};
ghost use Rattle.mk_words.specs.Rulings.{ruling as ruling_of};
ghost use Rattle.mk_column.specs.ColumnState.{shown as shown_of};
ghost use Rattle.mk_model.specs.Conditions.{may_read as may_read_key};
ghost use Rattle.mk_model.specs.Answers.{moved_outcome, attempt_answered};
ghost use Rattle.mk_model.specs.Steps.{new_attempt, unread_attempt, proposing, taught};
ghost use Rattle.mk_column.specs.StepsByCode.{taught_where};
ghost use Rattle.mk_model.specs.Logs.{not_reading};
ghost use Rattle.mk_history.specs.Leaving.{left_unless_taken_over};
ghost use Rattle.mk_column.specs.AttemptsByCode.{as_begun, on_state};

use crate::{Attempt, Reads};
use mk_coord::Coord;
use mk_history::Left;
use mk_quorum::Size;
use mk_txn::{Cause, Known, NoMemory, Outcome, ReadItem, Stamp, Txn, TxnId, next_stamp};
use mk_words::{Body, Moved, Ruling};
use std::alloc::Global;
use std::marker::Model;

/// An attempt, whether it reads, and what its own coordinator took. `validated` says whether a Validate of it was
/// sent, and `decided` is the first outcome that its own coordinator or a takeover of it learned.
#[derive(Drop)]
pub(crate) struct Begun {
    shown: Attempt,
    reading: bool,
    coord: Coord,
    validated: bool,
    decided: Option<Outcome>,
}

impl Model for Begun {
    ghost use Rattle.std.specs.Prelude.{◌≡◌};
    ghost use Rattle.mk_column.specs.AttemptsByCode.{BegunView, state_of};

    ghost Value = { BegunView };

    ghost view = { λ begun. record { state = state_of begun.shown begun.reading begun.coord.state; faults = begun.coord.faults; validated = begun.validated; decided = begun.decided } };

    ghost invariant = { λ begun. (begun.shown.proposed ≡ begun.coord.state.proposed) × (begun.shown.learned ≡ begun.coord.state.learned) };
}

// The outcome that a Moved teaches.
pub(crate) fn taught_by(moved: &Moved) -> Option<Outcome>
    ensures { result ≡ moved_outcome moved.now }
{
    match moved.fate {
        Known::Outcome(outcome) => Some(outcome),
        Known::Absent => Some(Outcome::Abort(Cause::Epoch(moved.to))),
        Known::Forgotten => None,
    }
}

impl Begun {
    /// An attempt that reads at this replica, in its epoch.
    pub(crate) fn reading(alloc: Global, size: Size, id: TxnId, replica: u32, epoch: u32) -> Begun
        ensures { result ≡ as_begun size (new_attempt size id replica epoch) }
    {
        Begun {
            shown: Attempt {
                id,
                replica,
                epoch,
                txn: None,
                unread: false,
                stopped: false,
                proposed: None,
                learned: None,
                reads: Reads::new(alloc),
            },
            reading: true,
            coord: Coord::new(size),
            validated: false,
            decided: None,
        }
    }

    /// An attempt that found no replica to read at.
    pub(crate) fn unread(alloc: Global, size: Size, id: TxnId) -> Begun
        ensures { result ≡ as_begun size (unread_attempt size id) }
    {
        let mut begun = Begun::reading(alloc, size, id, 0, 0);
        begun.reading = false;
        begun.shown.unread = true;
        begun
    }

    pub(crate) fn id(&self) -> TxnId
        ensures { result ≡ self.now.state.id }
    {
        self.shown.id
    }

    /// The attempt as the outside sees it.
    pub(crate) fn shown(&self) -> &Attempt
        ensures { result.now ≡ shown_of self.now.state }
    {
        &self.shown
    }

    pub(crate) fn is_reading(&self) -> bool
        ensures { result ≡ self.now.state.reading }
    {
        self.reading
    }

    pub(crate) fn is_validated(&self) -> bool
        ensures { result ≡ self.now.validated }
    {
        self.validated
    }

    pub(crate) fn decided(&self) -> Option<Outcome>
        ensures { result ≡ self.now.decided }
    {
        self.decided
    }

    /// The own coordinator's ruling.
    pub(crate) fn ruling(&self) -> Ruling
        ensures { result ≡ ruling_of self.now.faults self.now.state.coord }
    {
        self.coord.decide()
    }

    /// How it stands where nobody has learned its outcome and no takeover of it was begun.
    pub(crate) fn left(&self) -> Left
        ensures { result ≡ left_unless_taken_over self.now.faults self.now.state None }
    {
        if self.shown.stopped {
            return Left::Stopped;
        }
        match self.shown.proposed {
            Some(_) => Left::Unaccepted(self.coord.accept_count()),
            None => Left::Short(self.coord.vote_count()),
        }
    }

    /// The key was not read yet, and fewer than 16 were.
    pub(crate) fn may_read(&self, key: u32) -> bool
        ensures { result ≡ may_read_key key self.now.state }
    {
        self.shown.reads.may_take(key)
    }

    /// Joins what was read to the reads, which may take it.
    pub(crate) fn read(&mut self, item: ReadItem) -> Result<(), NoMemory>
        requires { may_read_key item.key self.old.state ≡ true }
        ensures ok { OnOk result (self.new ≡ on_state (λ a. record a { reads = a.reads ++ item ∷ [] }) self.old) }
        ensures err { OnErr result (self.new ≡ self.old) }
    {
        self.shown.reads.push(item)
    }

    /// Reading ends, and the transaction is made.
    pub(crate) fn stamp(&mut self, txn: Txn)
        ensures { self.new ≡ on_state (λ a. record a { reading = false; txn = Some txn }) self.old }
    {
        self.reading = false;
        self.shown.txn = Some(txn);
    }

    pub(crate) fn end_reading(&mut self)
        ensures { self.new ≡ on_state not_reading self.old }
    {
        self.reading = false;
    }

    pub(crate) fn stop(&mut self)
        ensures { self.new ≡ on_state (λ a. record a { stopped = true }) self.old }
    {
        self.shown.stopped = true;
    }

    /// Proposes the outcome that the votes give.
    pub(crate) fn propose(&mut self, outcome: Outcome)
        requires { ruling_of self.old.faults self.old.state.coord ≡ Propose outcome }
        ensures { self.new ≡ on_state (proposing outcome) self.old }
    {
        self.coord.propose(outcome);
        self.shown.proposed = Some(outcome);
    }

    /// Learns an outcome. The first one stays.
    pub(crate) fn learn(&mut self, outcome: Outcome)
        ensures { self.new ≡ on_state (taught outcome) self.old }
    {
        self.coord.learn(outcome);
        self.shown.learned = self.shown.learned.or(Some(outcome));
    }

    /// The own coordinator takes an answer of a replica.
    pub(crate) fn answer(&mut self, replica: u32, body: &Body)
        requires { replica < members self.old.faults }
        ensures { self.new ≡ on_state (attempt_answered replica body.now) self.old }
    {
        match body {
            Body::Voted(vote) => self.coord.take_vote(replica, *vote),
            Body::Accepted => self.coord.take_accepted(replica),
            Body::Told(told) => self.learn_where(told.last),
            Body::Moved(moved) => self.learn_where(taught_by(moved)),
            Body::Validate { .. } => {}
            Body::Accept(_) => {}
            Body::Decide(_) => {}
            Body::Ask => {}
        }
    }

    // Learns the outcome, where there is one.
    fn learn_where(&mut self, outcome: Option<Outcome>)
        ensures { self.new ≡ on_state (taught_where outcome) self.old }
    {
        if let Some(outcome) = outcome {
            self.learn(outcome);
        }
    }

    /// A Validate of it was sent.
    pub(crate) fn validate(&mut self)
        ensures { self.new ≡ record self.old { validated = true } }
    {
        self.validated = true;
    }

    /// Its own coordinator or a takeover of it learned the outcome. The first one stays.
    pub(crate) fn decide(&mut self, outcome: Outcome)
        ensures { self.new ≡ record self.old { decided = option_or self.old.decided (Some outcome) } }
    {
        self.decided = self.decided.or(Some(outcome));
    }

    /// The stamp of the attempt at this clock, where its client has this number and the time of its last stamp.
    pub(crate) fn next_stamp(&self, client: u32, last: u64, clock: u64) -> Option<Stamp>
        requires { last ≤ 2 ^ 62 }
        ensures { result ≡ next_stamp_of client last clock self.now.state.reads }
    {
        let reads = self.shown.reads.as_slice();
        if has_late(reads) {
            return None;
        }
        next_stamp(client, last, clock, reads)
    }
}

// Whether a version stands past the last time, so that no stamp is above it.
fn has_late(reads: &[ReadItem]) -> bool
    ensures { result ≡ list_any (λ item. nat_lt (2 ^ 62) item.version.time) reads.now }
{
    reads.iter().any(|item| item.version.time > 1 << 62)
}
