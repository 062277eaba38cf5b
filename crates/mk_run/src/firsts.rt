//! What was learned first of each attempt.
ghost use Rattle.std.specs.Prelude.{◌≡◌, ◌<◌, ◌∷◌, ◌++◌, [], None, Some, length, option_copied, slice_index_or, slice_set, IsSome, OnOk, OnErr};
ghost use Rattle.mk_run.specs.Firsts.{first_in, noted, with_path, change_first};
ghost use Rattle.mk_run.specs.declared.firsts.FirstLearning.{FirstLearning as OneFirst};

use indexmap::IndexSet;
use mk_history::Path;
use mk_txn::{NoMemory, Outcome, TxnId};
use std::alloc::Global;
use std::marker::Model;

/// The outcome of an attempt that was learned first, and the first path that a learning of it names.
#[derive(Clone, Copy)]
pub(crate) struct FirstLearning {
    pub(crate) id: TxnId,
    pub(crate) outcome: Outcome,
    pub(crate) path: Option<Path>,
}

/// Of each attempt what was learned first, in the order in which that was.
#[derive(Drop)]
pub(crate) struct FirstLearnings {
    items: Vec<FirstLearning>,
    // the attempt of each, at its place
    ids: IndexSet<TxnId>,
}

impl Model for FirstLearnings {
    ghost use Rattle.std.specs.Prelude.{List};
    ghost use Rattle.mk_lists.specs.Keyed.{IsIndex};
    ghost use Rattle.mk_run.specs.declared.firsts.FirstLearning.{FirstLearning};
    ghost use Rattle.mk_run.specs.Firsts.{first_id};

    ghost Value = { List FirstLearning };

    ghost view = { λ firsts. firsts.items.items };

    ghost invariant = { λ firsts. IsIndex first_id firsts.items.items firsts.ids.keys };
}

impl FirstLearnings {
    pub(crate) fn new(alloc: Global) -> FirstLearnings
        ensures { result ≡ [] }
    {
        FirstLearnings {
            items: Vec::new(alloc),
            ids: IndexSet::new(alloc),
        }
    }

    /// What was learned first of this attempt.
    pub(crate) fn find(&self, id: TxnId) -> Option<&FirstLearning>
        ensures { option_copied result ≡ first_in id self.now }
    {
        let place = self.ids.get_index_of(&id)?;
        self.items.get(place)
    }

    // Appends one, of whose attempt there is none.
    fn push(&mut self, first: FirstLearning) -> Result<(), NoMemory>
        requires { first_in first.id self.old ≡ None }
        ensures ok { OnOk result (self.new ≡ self.old ++ first ∷ []) }
        ensures err { OnErr result (self.new ≡ self.old) }
    {
        self.items.reserve(1)?;
        self.ids.insert(first.id)?;
        self.items.push_reserved(first);
        Ok(())
    }

    // Where that of the attempt stands. To change it there is to change it in the list.
    fn place(&self, id: TxnId) -> usize
        requires { IsSome (first_in id self.now) }
        ensures within { result < length self.now }
        ensures found { (first : OneFirst) → first_in id self.now ≡ Some (slice_index_or self.now result first) }
        ensures changed { (f : OneFirst → OneFirst) (first : OneFirst) → change_first id f self.now ≡ slice_set self.now result (f (slice_index_or self.now result first)) }
    {
        self.ids.get_index_of(&id).unwrap()
    }

    // The attempt is learned by this path, where none is named yet.
    fn name_path(&mut self, id: TxnId, path: Option<Path>)
        requires { IsSome (first_in id self.old) }
        ensures { self.new ≡ change_first id (with_path path) self.old }
    {
        let place = self.place(id);
        self.items[place].name_path(path);
    }

    /// One more learning, after those so far.
    pub(crate) fn note(&mut self, learning: FirstLearning) -> Result<(), NoMemory>
        ensures ok { OnOk result (self.new ≡ noted learning self.old) }
        ensures err { OnErr result (self.new ≡ self.old) }
    {
        if self.find(learning.id).is_some() {
            self.name_path(learning.id, learning.path);
            return Ok(());
        }
        self.push(learning)
    }
}

impl FirstLearning {
    // The first path that is named stays.
    fn name_path(&mut self, path: Option<Path>)
        ensures { self.new ≡ with_path path self.old }
    {
        self.path = self.path.or(path);
    }
}
