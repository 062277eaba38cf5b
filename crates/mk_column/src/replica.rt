//! What a replica keeps of a column, and what it does with a message.
ghost use Rattle.std.specs.Prelude.{◌≡◌, [], true, None, Some, option_copied, IsSome, IsSomeAnd, OnOk, OnErr, IfOk};
ghost use Rattle.mk_words.specs.declared.Entry.{Entry as AnEntry};
ghost use Rattle.mk_words.specs.Entries.{entry_of, may_vote, change_entry, with_vote};
ghost use Rattle.mk_words.specs.declared.Msg.{Msg as AMsg};
ghost use Rattle.mk_model.specs.Replicas.{Held as AllHeld, reaction_by_view, moved_reaction, on_validate, ask_known, accept_known, decide_known, entry_or_opened, with_entry, told_of, ignored, answering as all_answering, is_serving as serving_phase, finishing as work_finishing};
ghost use Rattle.mk_column.specs.HeldByCode.{reaction_with, work_of, refused_with, answer_to_validate, is_decide as decide_body};

use crate::work::Work;
use crate::{Phase, ReplicaView};
use mk_record::{CoreRecord, RecordError};
use mk_txn::{Marks, NoMemory, Outcome, Txn, TxnId, Vote};
use mk_valid::{Finishing, Validation};
use mk_words::{Body, Entry, Moved, Msg, Told};
use std::alloc::Global;
use std::marker::Model;

/// The record and the marks of one replica.
#[derive(Drop)]
pub(crate) struct Replica {
    record: CoreRecord,
    marks: Marks,
}

impl Model for Replica {
    ghost use Rattle.mk_model.specs.Replicas.{Held};

    ghost Value = { Held };

    ghost view = { λ replica. record { entries = replica.record; marks = replica.marks } };
}

/// What a replica does with a message beside changing what it keeps.
#[derive(Drop)]
pub(crate) struct Reaction {
    pub(crate) answer: Option<Body>,
    pub(crate) work: Work,
}

impl Reaction {
    fn nothing() -> Reaction
        ensures { (held : AllHeld) (msg : AMsg) → reaction_with held msg result.answer result.work ≡ ignored held }
    {
        Reaction {
            answer: None,
            work: Work::Idle,
        }
    }

    fn answering(body: Body) -> Reaction
        ensures { (held : AllHeld) (msg : AMsg) → reaction_with held msg result.answer result.work ≡ all_answering held msg body }
    {
        Reaction {
            answer: Some(body),
            work: Work::Idle,
        }
    }

    // A final entry answers what it tells, and a higher view ignores the message.
    fn refused(error: RecordError, told: Told) -> Reaction
        ensures { (held : AllHeld) (msg : AMsg) → reaction_with held msg result.answer result.work ≡ refused_with held msg told error }
    {
        match error {
            RecordError::Finished(_) => Reaction::answering(Body::Told(told)),
            RecordError::OldView(_) => Reaction::nothing(),
        }
    }
}

pub(crate) fn is_serving(phase: Phase) -> bool
    ensures { result ≡ serving_phase phase }
{
    matches!(phase, Phase::Serving)
}

// What an entry answers to a Validate.
fn known(entry: &Entry) -> Option<Body>
    ensures { result ≡ answer_to_validate entry.now entry.now.last entry.now.vote }
{
    if entry.last.is_some() {
        return Some(Body::Told(told(entry)));
    }
    match entry.vote {
        Some(vote) => Some(Body::Voted(vote)),
        None => None,
    }
}

// What a Told tells of an entry.
fn told(entry: &Entry) -> Told
    ensures { result ≡ told_of entry.now }
{
    Told {
        vote: entry.vote,
        accepted: entry.accepted,
        last: entry.last,
    }
}

fn is_decide(body: &Body) -> bool
    ensures { result ≡ decide_body body.now }
{
    matches!(body, Body::Decide(_))
}

// A replica of a later epoch answers all but a Decide.
fn moved(view: &ReplicaView, msg: &Msg) -> Reaction
    ensures { (held : AllHeld) → reaction_with held msg.now result.answer result.work ≡ moved_reaction view.now held msg.now msg.now.body }
{
    if is_decide(&msg.body) {
        return Reaction::nothing();
    }
    Reaction::answering(Body::Moved(Moved {
        to: view.epoch,
        fate: view.fates.fate(msg.id),
    }))
}

// The end of a transaction at a replica, where there is something to do.
pub(crate) fn finishing(replica: u32, left: Finishing) -> Work
    ensures { work_of result ≡ work_finishing replica left }
{
    if left.next_act().is_none() {
        Work::Idle
    } else {
        Work::Finishing { replica, left }
    }
}

impl Replica {
    /// No entries and no marks.
    pub(crate) fn new(alloc: Global) -> Replica
        ensures { result ≡ record { entries = []; marks = [] } }
    {
        Replica {
            record: CoreRecord::new(alloc),
            marks: Marks::new(alloc),
        }
    }

    pub(crate) fn entries(&self) -> &[Entry]
        ensures { result.now ≡ self.now.entries }
    {
        self.record.entries()
    }

    /// The entry of this attempt.
    pub(crate) fn find(&self, id: TxnId) -> Option<&Entry>
        ensures { option_copied result ≡ entry_of id self.now.entries }
    {
        self.record.find(id)
    }

    pub(crate) fn marks(&self) -> &Marks
        ensures { result.now ≡ self.now.marks }
    {
        &self.marks
    }

    /// Sets the vote of an entry for which nothing was promised, voted, accepted or decided.
    pub(crate) fn vote(&mut self, id: TxnId, vote: Vote)
        requires { IsSomeAnd (entry_of id self.old.entries) (λ entry. may_vote entry ≡ true) }
        ensures { self.new ≡ record self.old { entries = change_entry id (with_vote vote) self.old.entries } }
    {
        self.record.set_vote(id, vote);
    }

    /// Leaves no entries and no marks.
    pub(crate) fn reset(&mut self)
        ensures { self.new ≡ record { entries = []; marks = [] } }
    {
        self.record.clear();
        self.marks.clear();
    }

    /// Takes a message about this transaction.
    pub(crate) fn take(
        &mut self,
        alloc: Global,
        txn: &Txn,
        msg: &Msg,
        view: &ReplicaView,
    ) -> Result<Reaction, NoMemory>
        requires { txn.now.id ≡ msg.now.id }
        ensures ok { IfOk result (λ reaction. reaction_with self.new msg.now reaction.answer reaction.work ≡ reaction_by_view txn.now self.old msg.now (Some view.now)) }
        ensures err { OnErr result (self.new ≡ self.old) }
    {
        if !is_serving(view.phase) {
            return Ok(Reaction::nothing());
        }
        if view.epoch < msg.epoch {
            return Ok(Reaction::nothing());
        }
        if msg.epoch < view.epoch {
            return Ok(moved(view, msg));
        }
        match msg.body {
            Body::Validate { mark } => self.validate(alloc, txn, mark, msg),
            Body::Ask => {
                self.open(txn)?;
                Ok(self.ask(msg))
            }
            Body::Accept(outcome) => {
                self.open(txn)?;
                Ok(self.accept(outcome, msg))
            }
            Body::Decide(outcome) => self.decide(alloc, txn, outcome, msg),
            Body::Voted(_) => Ok(Reaction::nothing()),
            Body::Accepted => Ok(Reaction::nothing()),
            Body::Told(_) => Ok(Reaction::nothing()),
            Body::Moved(_) => Ok(Reaction::nothing()),
        }
    }

    // Opens an entry of the transaction, where there is none.
    fn open(&mut self, txn: &Txn) -> Result<(), NoMemory>
        ensures ok { OnOk result (self.new ≡ with_entry txn.now self.old (entry_of txn.now.id self.old.entries)) }
        ensures there { OnOk result (entry_of txn.now.id self.new.entries ≡ Some (entry_or_opened txn.now (entry_of txn.now.id self.old.entries))) }
        ensures err { OnErr result (self.new ≡ self.old) }
    {
        if self.record.find(txn.id()).is_none() {
            self.record.open_entry(txn)?;
        }
        Ok(())
    }

    // Where there is no entry one is opened, and validation begins. One that has voted or is final answers.
    fn validate(
        &mut self,
        alloc: Global,
        txn: &Txn,
        mark: u32,
        msg: &Msg,
    ) -> Result<Reaction, NoMemory>
        requires { txn.now.id ≡ msg.now.id }
        ensures ok { IfOk result (λ reaction. reaction_with self.new msg.now reaction.answer reaction.work ≡ on_validate txn.now mark self.old msg.now (entry_of msg.now.id self.old.entries)) }
        ensures err { OnErr result (self.new ≡ self.old) }
    {
        let Some(entry) = self.record.find(msg.id) else {
            return self.begin_validation(alloc, txn, mark, msg);
        };
        let Some(body) = known(entry) else {
            return Ok(Reaction::nothing());
        };
        self.marks.raise(msg.id.client, mark)?;
        Ok(Reaction::answering(body))
    }

    fn begin_validation(
        &mut self,
        alloc: Global,
        txn: &Txn,
        mark: u32,
        msg: &Msg,
    ) -> Result<Reaction, NoMemory>
        requires id { txn.now.id ≡ msg.now.id }
        requires none { entry_of msg.now.id self.old.entries ≡ None }
        ensures ok { IfOk result (λ reaction. reaction_with self.new msg.now reaction.answer reaction.work ≡ on_validate txn.now mark self.old msg.now None) }
        ensures err { OnErr result (self.new ≡ self.old) }
    {
        let state = Validation::start(alloc, txn)?;
        let kept = txn.copy()?;
        let mut marks = self.marks.copy()?;
        marks.raise(msg.id.client, mark)?;
        self.record.open_entry(txn)?;
        self.marks = marks;
        let work = Work::Validating {
            txn: kept,
            replica: msg.replica,
            epoch: msg.epoch,
            state,
        };
        Ok(Reaction { answer: None, work })
    }

    // What the entry of this attempt tells.
    fn told(&self, id: TxnId) -> Told
        requires { IsSome (entry_of id self.now.entries) }
        ensures { (entry : AnEntry) → entry_of id self.now.entries ≡ Some entry → result ≡ told_of entry }
    {
        told(self.record.find(id).unwrap())
    }

    // Promises the message's view, or tells of a final entry. A higher view ignores it.
    fn ask(&mut self, msg: &Msg) -> Reaction
        requires { IsSome (entry_of msg.now.id self.old.entries) }
        ensures { (entry : AnEntry) → entry_of msg.now.id self.old.entries ≡ Some entry → reaction_with self.new msg.now result.answer result.work ≡ ask_known entry self.old msg.now entry.last }
    {
        let told = self.told(msg.id);
        if let Err(error) = self.record.promise(msg.id, msg.view) {
            return Reaction::refused(error, told);
        }
        Reaction::answering(Body::Told(told))
    }

    // Accepts the outcome in the message's view, or tells of a final entry. A higher view ignores it.
    fn accept(&mut self, outcome: Outcome, msg: &Msg) -> Reaction
        requires { IsSome (entry_of msg.now.id self.old.entries) }
        ensures { (entry : AnEntry) → entry_of msg.now.id self.old.entries ≡ Some entry → reaction_with self.new msg.now result.answer result.work ≡ accept_known outcome entry self.old msg.now entry.last }
    {
        let told = self.told(msg.id);
        if let Err(error) = self.record.accept(msg.id, msg.view, outcome) {
            return Reaction::refused(error, told);
        }
        Reaction::answering(Body::Accepted)
    }

    // Makes the entry final, and begins the end of the transaction. A final entry ignores it.
    fn decide(
        &mut self,
        alloc: Global,
        txn: &Txn,
        outcome: Outcome,
        msg: &Msg,
    ) -> Result<Reaction, NoMemory>
        requires { txn.now.id ≡ msg.now.id }
        ensures ok { IfOk result (λ reaction. reaction_with self.new msg.now reaction.answer reaction.work ≡ decide_known outcome (entry_or_opened txn.now (entry_of msg.now.id self.old.entries)) (with_entry txn.now self.old (entry_of msg.now.id self.old.entries)) msg.now (entry_or_opened txn.now (entry_of msg.now.id self.old.entries)).last) }
        ensures err { OnErr result (self.new ≡ self.old) }
    {
        let left = match self.record.find(msg.id) {
            Some(entry) => Finishing::start(
                alloc,
                &entry.txn,
                outcome,
                entry.vote == Some(Vote::Ok),
            )?,
            None => Finishing::start(alloc, txn, outcome, false)?,
        };
        self.open(txn)?;
        if let Err(_kept) = self.record.finish(msg.id, outcome) {
            return Ok(Reaction::nothing());
        }
        Ok(Reaction {
            answer: None,
            work: finishing(msg.replica, left),
        })
    }
}
