//! The takeovers of a column, found by attempt and view.
ghost use Rattle.std.specs.Prelude.{◌≡◌, ◌<◌, ◌∷◌, ◌++◌, [], true, false, None, Some, length, slice_get, slice_index_or, slice_set, option_copied, IsSome, IsSomeAnd, OnOk, OnErr};
ghost use Rattle.mk_quorum.specs.Sizes.{members};
ghost use Rattle.mk_words.specs.declared.Pick.TheVariants.{Propose};
ghost use Rattle.mk_words.specs.Picks.{pick as pick_of};
ghost use Rattle.mk_model.specs.Answers.{takeover_answered};
ghost use Rattle.mk_model.specs.Steps.{closing, takeover_proposing};
ghost use Rattle.mk_column.specs.TakeoversByCode.{BackupView as OneBackup, on_backup, view_id_of, backup_of, change_backup, last_backup};

use crate::backup::{Backup, ViewId};
use indexmap::IndexSet;
use mk_txn::{NoMemory, Outcome, TxnId, same_id};
use mk_words::Body;
use std::alloc::Global;
use std::marker::Model;

/// The takeovers in the order in which they began.
#[derive(Drop)]
pub(crate) struct Takeovers {
    items: Vec<Backup>,
    // the attempt and view of each takeover, at its place
    ids: IndexSet<ViewId>,
}

impl Model for Takeovers {
    ghost use Rattle.std.specs.Prelude.{List};
    ghost use Rattle.mk_column.specs.TakeoversByCode.{BackupView, view_id_of};
    ghost use Rattle.mk_lists.specs.Keyed.{IsIndex};

    ghost Value = { List BackupView };

    ghost view = { λ takeovers. takeovers.items.items };

    ghost invariant = { λ takeovers. IsIndex view_id_of takeovers.items.items takeovers.ids.keys };
}

impl Takeovers {
    pub(crate) fn new(alloc: Global) -> Takeovers
        ensures { result ≡ [] }
    {
        Takeovers {
            items: Vec::new(alloc),
            ids: IndexSet::new(alloc),
        }
    }

    /// The takeover of this attempt at this view.
    pub(crate) fn find(&self, view_id: ViewId) -> Option<&Backup>
        ensures { option_copied result ≡ backup_of view_id self.now }
    {
        let place = self.ids.get_index_of(&view_id)?;
        self.items.get(place)
    }

    /// The takeover at this place.
    pub(crate) fn get(&self, place: usize) -> Option<&Backup>
        ensures { option_copied result ≡ slice_get self.now place }
    {
        self.items.get(place)
    }

    /// The takeover of the attempt that began last.
    pub(crate) fn last_of(&self, id: TxnId) -> Option<&Backup>
        ensures { option_copied result ≡ last_backup id self.now }
    {
        let mut last = None;
        for backup in self.items.iter() {
            if same_id(backup.view_id().id, id) {
                last = Some(backup);
            }
        }
        last
    }

    pub(crate) fn len(&self) -> usize
        ensures { result ≡ length self.now }
    {
        self.items.len()
    }

    /// Appends a takeover, where there is none of its attempt at its view.
    pub(crate) fn push(&mut self, backup: Backup) -> Result<(), NoMemory>
        requires { backup_of (view_id_of backup) self.old ≡ None }
        ensures ok { OnOk result (self.new ≡ self.old ++ backup ∷ []) }
        ensures err { OnErr result (self.new ≡ self.old) }
    {
        self.items.reserve(1)?;
        self.ids.insert(backup.view_id())?;
        self.items.push_reserved(backup);
        Ok(())
    }

    // Where the takeover stands. To change it there is to change it in the list.
    fn place(&self, view_id: ViewId) -> usize
        requires { IsSome (backup_of view_id self.now) }
        ensures within { result < length self.now }
        ensures found { (backup : OneBackup) → backup_of view_id self.now ≡ Some (slice_index_or self.now result backup) }
        ensures changed { (f : OneBackup → OneBackup) (backup : OneBackup) → change_backup view_id f self.now ≡ slice_set self.now result (f (slice_index_or self.now result backup)) }
    {
        self.ids.get_index_of(&view_id).unwrap()
    }

    /// The takeover is done.
    pub(crate) fn close(&mut self, view_id: ViewId)
        requires { IsSome (backup_of view_id self.old) }
        ensures { self.new ≡ change_backup view_id (on_backup closing) self.old }
    {
        let place = self.place(view_id);
        self.items[place].close();
    }

    /// Proposes the outcome that the promises give.
    pub(crate) fn propose(&mut self, view_id: ViewId, outcome: Outcome)
        requires { IsSomeAnd (backup_of view_id self.old) (λ backup. pick_of backup.faults backup.of.state ≡ Propose outcome) }
        ensures { self.new ≡ change_backup view_id (on_backup (takeover_proposing outcome)) self.old }
    {
        let place = self.place(view_id);
        self.items[place].propose(outcome);
    }

    /// Takes an answer of a replica, unless it is done.
    pub(crate) fn answer(&mut self, view_id: ViewId, replica: u32, body: &Body)
        requires { IsSomeAnd (backup_of view_id self.old) (λ backup. replica < members backup.faults) }
        ensures { self.new ≡ change_backup view_id (on_backup (takeover_answered replica body.now)) self.old }
    {
        let place = self.place(view_id);
        self.items[place].answer(replica, body);
    }
}
