//! The attempts of a column, found by their numbers.
ghost use Rattle.std.specs.Prelude.{◌≡◌, ◌<◌, List, ◌∷◌, ◌++◌, [], true, false, None, Some, length, map, slice_index_or, slice_set, option_copied, option_and_then, IsSome, IsSomeAnd, OnOk, OnErr};
ghost use Rattle.std.specs.Option.{option_or};
ghost use Rattle.mk_quorum.specs.Sizes.{members};
ghost use Rattle.mk_words.specs.declared.Ruling.TheVariants.{Propose};
ghost use Rattle.mk_words.specs.Rulings.{ruling as ruling_of};
ghost use Rattle.mk_model.specs.Conditions.{may_read};
ghost use Rattle.mk_model.specs.Answers.{attempt_answered};
ghost use Rattle.mk_model.specs.Steps.{proposing, taught};
ghost use Rattle.mk_model.specs.Logs.{not_reading};
ghost use Rattle.mk_column.specs.AttemptsByCode.{BegunView as OneBegun, on_state, begun_of, change_begun};

use crate::begun::Begun;
use indexmap::IndexSet;
use mk_txn::{NoMemory, Outcome, ReadItem, Txn, TxnId};
use mk_words::Body;
use std::alloc::Global;
use std::marker::Model;

/// The attempts in the order in which they began.
#[derive(Drop)]
pub(crate) struct Attempts {
    items: Vec<Begun>,
    // the number of each attempt, at its place
    ids: IndexSet<TxnId>,
}

impl Model for Attempts {
    ghost use Rattle.std.specs.Prelude.{List};
    ghost use Rattle.mk_column.specs.AttemptsByCode.{BegunView, begun_id};
    ghost use Rattle.mk_lists.specs.Keyed.{IsIndex};

    ghost Value = { List BegunView };

    ghost view = { λ attempts. attempts.items.items };

    ghost invariant = { λ attempts. IsIndex begun_id attempts.items.items attempts.ids.keys };
}

impl Attempts {
    pub(crate) fn new(alloc: Global) -> Attempts
        ensures { result ≡ [] }
    {
        Attempts {
            items: Vec::new(alloc),
            ids: IndexSet::new(alloc),
        }
    }

    /// The attempt of this number.
    pub(crate) fn find(&self, id: TxnId) -> Option<&Begun>
        ensures { option_copied result ≡ begun_of id self.now }
    {
        let place = self.ids.get_index_of(&id)?;
        self.items.get(place)
    }

    /// The transaction of this number, once it is stamped.
    pub(crate) fn txn(&self, id: TxnId) -> Option<&Txn>
        ensures { option_copied result ≡ option_and_then (λ (begun : OneBegun). begun.state.txn) (begun_of id self.now) }
    {
        match self.find(id) {
            Some(begun) => begun.shown().txn.as_ref(),
            None => None,
        }
    }

    /// Appends an attempt, of whose number there is none.
    pub(crate) fn push(&mut self, begun: Begun) -> Result<(), NoMemory>
        requires { begun_of begun.state.id self.old ≡ None }
        ensures ok { OnOk result (self.new ≡ self.old ++ begun ∷ []) }
        ensures err { OnErr result (self.new ≡ self.old) }
    {
        self.items.reserve(1)?;
        self.ids.insert(begun.id())?;
        self.items.push_reserved(begun);
        Ok(())
    }

    /// Takes the last attempt away.
    pub(crate) fn pop(&mut self)
        ensures { (all : List OneBegun) (begun : OneBegun) → self.old ≡ all ++ begun ∷ [] → self.new ≡ all }
    {
        if let Some(_begun) = self.items.pop() {
            self.ids.truncate(self.items.len());
        }
    }

    // Where the attempt of this number stands. To change it there is to change it in the list.
    fn place(&self, id: TxnId) -> usize
        requires { IsSome (begun_of id self.now) }
        ensures within { result < length self.now }
        ensures found { (begun : OneBegun) → begun_of id self.now ≡ Some (slice_index_or self.now result begun) }
        ensures changed { (f : OneBegun → OneBegun) (begun : OneBegun) → change_begun id f self.now ≡ slice_set self.now result (f (slice_index_or self.now result begun)) }
    {
        self.ids.get_index_of(&id).unwrap()
    }

    /// Reading ends, and the transaction is made.
    pub(crate) fn stamp(&mut self, id: TxnId, txn: Txn)
        requires { IsSome (begun_of id self.old) }
        ensures changed { self.new ≡ change_begun id (on_state (λ a. record a { reading = false; txn = Some txn })) self.old }
        ensures as_found { (f : OneBegun → OneBegun) (before : OneBegun) → begun_of id self.old ≡ Some before → f before ≡ on_state (λ a. record a { reading = false; txn = Some txn }) before → self.new ≡ change_begun id f self.old }
    {
        let place = self.place(id);
        self.items[place].stamp(txn);
    }

    /// The own coordinator stops for good.
    pub(crate) fn stop(&mut self, id: TxnId)
        requires { IsSome (begun_of id self.old) }
        ensures { self.new ≡ change_begun id (on_state (λ a. record a { stopped = true })) self.old }
    {
        let place = self.place(id);
        self.items[place].stop();
    }

    /// The own coordinator learns an outcome. The first one stays.
    pub(crate) fn learn(&mut self, id: TxnId, outcome: Outcome)
        requires { IsSome (begun_of id self.old) }
        ensures { self.new ≡ change_begun id (on_state (taught outcome)) self.old }
    {
        let place = self.place(id);
        self.items[place].learn(outcome);
    }

    /// Joins what was read to the attempt's reads, which may take it.
    pub(crate) fn read(&mut self, id: TxnId, item: ReadItem) -> Result<(), NoMemory>
        requires { IsSomeAnd (begun_of id self.old) (λ begun. may_read item.key begun.state ≡ true) }
        ensures ok { OnOk result (self.new ≡ change_begun id (on_state (λ a. record a { reads = a.reads ++ item ∷ [] })) self.old) }
        ensures err { OnErr result (self.new ≡ self.old) }
    {
        let place = self.place(id);
        self.items[place].read(item)?;
        Ok(())
    }

    /// The own coordinator proposes the outcome that the votes give.
    pub(crate) fn propose(&mut self, id: TxnId, outcome: Outcome)
        requires { IsSomeAnd (begun_of id self.old) (λ begun. ruling_of begun.faults begun.state.coord ≡ Propose outcome) }
        ensures { self.new ≡ change_begun id (on_state (proposing outcome)) self.old }
    {
        let place = self.place(id);
        self.items[place].propose(outcome);
    }

    /// The own coordinator takes an answer of a replica.
    pub(crate) fn answer(&mut self, id: TxnId, replica: u32, body: &Body)
        requires { IsSomeAnd (begun_of id self.old) (λ begun. replica < members begun.faults) }
        ensures { self.new ≡ change_begun id (on_state (attempt_answered replica body.now)) self.old }
    {
        let place = self.place(id);
        self.items[place].answer(replica, body);
    }

    /// No attempt reads any more.
    pub(crate) fn end_reading(&mut self)
        ensures { self.new ≡ map (on_state not_reading) self.old }
    {
        end_reading(self.items.as_mut_slice());
    }

    /// A Validate of the attempt was sent.
    pub(crate) fn validate(&mut self, id: TxnId)
        requires { IsSome (begun_of id self.old) }
        ensures { self.new ≡ change_begun id (λ begun. record begun { validated = true }) self.old }
    {
        let place = self.place(id);
        self.items[place].validate();
    }

    /// The own coordinator or a takeover of the attempt learned the outcome. The first one stays.
    pub(crate) fn decide(&mut self, id: TxnId, outcome: Outcome)
        requires { IsSome (begun_of id self.old) }
        ensures { self.new ≡ change_begun id (λ begun. record begun { decided = option_or begun.decided (Some outcome) }) self.old }
    {
        let place = self.place(id);
        self.items[place].decide(outcome);
    }
}

fn end_reading(attempts: &mut [Begun])
    ensures { attempts.new ≡ map (on_state not_reading) attempts.old }
{
    for begun in attempts.iter_mut() {
        begun.end_reading();
    }
}
