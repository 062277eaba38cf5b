//! The entries of one replica, found by the number of their attempt.
ghost use Rattle.std.specs.Prelude.{◌≡◌, ◌<◌, true, None, Some, [], ◌∷◌, ◌++◌, length, slice_index_or, slice_set, IsSome, IsSomeAnd, OnOk, OnErr, IfErr, option_copied};
ghost use Rattle.mk_words.specs.declared.Entry.{Entry as AnEntry};
ghost use Rattle.mk_words.specs.Entries.{opened, entry_of, change_entry, with_vote, with_promise, with_accepted, with_last, may_vote, last_in, HasDistinctIds};
ghost use Rattle.mk_record.specs.Entries.{refusal_in};

use crate::{Entry, RecordError, refusal};
use indexmap::IndexSet;
use mk_txn::{Accepted, NoMemory, Outcome, Txn, TxnId, Vote};
use std::alloc::Global;
use std::marker::Model;

/// What a replica keeps: at most one entry of each attempt, in the order in which they were opened.
#[derive(Drop)]
pub struct CoreRecord {
    entries: Vec<Entry>,
    // the attempt of each entry, at its place
    ids: IndexSet<TxnId>,
}

impl Model for CoreRecord {
    ghost use Rattle.std.specs.Prelude.{List};
    ghost use Rattle.mk_words.specs.declared.Entry.{Entry};

    ghost Value = { List Entry };

    ghost use Rattle.mk_lists.specs.Keyed.{IsIndex};

    ghost view = { λ held. held.entries.items };

    ghost invariant = { λ held. IsIndex (λ entry. entry.txn.id) held.entries.items held.ids.keys };
}

impl CoreRecord {
    /// No entries.
    pub fn new(alloc: Global) -> CoreRecord
        ensures { result ≡ [] }
    {
        CoreRecord {
            entries: Vec::new(alloc),
            ids: IndexSet::new(alloc),
        }
    }

    /// The entry of this attempt.
    pub fn find(&self, id: TxnId) -> Option<&Entry>
        ensures { option_copied result ≡ entry_of id self.now }
    {
        let place = self.ids.get_index_of(&id)?;
        self.entries.get(place)
    }

    /// All entries, in the order in which they were opened.
    pub fn entries(&self) -> &[Entry]
        ensures value { result.now ≡ self.now }
        ensures distinct { HasDistinctIds self.now }
    {
        self.entries.as_slice()
    }

    /// Leaves no entry.
    pub fn clear(&mut self)
        ensures { self.new ≡ [] }
    {
        self.entries.clear();
        self.ids.clear();
    }

    /// Opens an entry of the transaction, which it copies: nothing is promised, voted, accepted or decided.
    pub fn open_entry(&mut self, txn: &Txn) -> Result<(), NoMemory>
        requires { entry_of txn.now.id self.old ≡ None }
        ensures ok { OnOk result (self.new ≡ self.old ++ opened txn.now ∷ []) }
        ensures err { OnErr result (self.new ≡ self.old) }
    {
        let entry = Entry {
            txn: txn.copy()?,
            view: 0,
            vote: None,
            accepted: None,
            last: None,
        };
        self.entries.reserve(1)?;
        self.ids.insert(txn.id())?;
        self.entries.push_reserved(entry);
        Ok(())
    }

    // Where the entry of this attempt stands. To change it there is to change it in the record.
    fn place(&self, id: TxnId) -> usize
        requires { IsSome (entry_of id self.now) }
        ensures within { result < length self.now }
        ensures found { (entry : AnEntry) → entry_of id self.now ≡ Some (slice_index_or self.now result entry) }
        ensures changed { (f : AnEntry → AnEntry) (entry : AnEntry) → change_entry id f self.now ≡ slice_set self.now result (f (slice_index_or self.now result entry)) }
    {
        self.ids.get_index_of(&id).unwrap()
    }

    /// Sets the vote of an entry for which nothing was promised, voted, accepted or decided.
    pub fn set_vote(&mut self, id: TxnId, vote: Vote)
        requires { IsSomeAnd (entry_of id self.old) (λ entry. may_vote entry ≡ true) }
        ensures { self.new ≡ change_entry id (with_vote vote) self.old }
    {
        let place = self.place(id);
        self.entries[place].vote = Some(vote);
    }

    /// Promises the view. A final entry refuses with its outcome, and else one of a higher view with that view.
    pub fn promise(&mut self, id: TxnId, view: u32) -> Result<(), RecordError>
        requires { IsSome (entry_of id self.old) }
        ensures ok { OnOk result (self.new ≡ change_entry id (with_promise view) self.old) }
        ensures err { OnErr result (self.new ≡ self.old) }
        ensures accepted { OnOk result (refusal_in view id self.old ≡ None) }
        ensures refused { IfErr result (λ error. refusal_in view id self.old ≡ Some error) }
    {
        let place = self.place(id);
        if let Some(error) = refusal(&self.entries[place], view) {
            return Err(error);
        }
        self.entries[place].view = view;
        Ok(())
    }

    /// Accepts the outcome in the view, which it promises too. Refuses as `promise` does.
    pub fn accept(&mut self, id: TxnId, view: u32, outcome: Outcome) -> Result<(), RecordError>
        requires { IsSome (entry_of id self.old) }
        ensures ok { OnOk result (self.new ≡ change_entry id (with_accepted view outcome) self.old) }
        ensures err { OnErr result (self.new ≡ self.old) }
        ensures accepted { OnOk result (refusal_in view id self.old ≡ None) }
        ensures refused { IfErr result (λ error. refusal_in view id self.old ≡ Some error) }
    {
        let place = self.place(id);
        if let Some(error) = refusal(&self.entries[place], view) {
            return Err(error);
        }
        let entry = &mut self.entries[place];
        entry.view = view;
        entry.accepted = Some(Accepted { view, outcome });
        Ok(())
    }

    /// Makes the entry final with this outcome. One that is final already keeps its outcome, and answers it.
    pub fn finish(&mut self, id: TxnId, outcome: Outcome) -> Result<(), Outcome>
        requires { IsSome (entry_of id self.old) }
        ensures ok { OnOk result (self.new ≡ change_entry id (with_last outcome) self.old) }
        ensures err { OnErr result (self.new ≡ self.old) }
        ensures unfinished { OnOk result (last_in id self.old ≡ None) }
        ensures finished { IfErr result (λ kept. last_in id self.old ≡ Some kept) }
    {
        let place = self.place(id);
        if let Some(kept) = self.entries[place].last {
            return Err(kept);
        }
        self.entries[place].last = Some(outcome);
        Ok(())
    }
}
