//! The commits that were received, found by their attempts and by their stamps.
ghost use Rattle.std.specs.Prelude.{◌≡◌, ◌<◌, ◌∷◌, ◌++◌, [], false, not, count_by, length, List, OnOk, OnErr, IfOk, IfSome, option_copied, slice_set, slice_index_or};
ghost use Rattle.mk_lists.specs.Among.{Among, Each};
ghost use Rattle.mk_feed_words.specs.declared.Received.{Received as Commit};
ghost use Rattle.mk_feed_words.specs.Feed.{counted as counted_in, is_upto};
ghost use Rattle.mk_follow.specs.Orders.{IsNextAbove, IsAscending, placed};
ghost use Rattle.mk_follow.specs.Commits.{entries_in, HasRoom};
ghost use Rattle.mk_follow.specs.Following.{has_id};

use crate::order::{Entry, put, upto};
use indexmap::IndexSet;
use mk_feed_words::Received;
use mk_txn::{NoMemory, Stamp, Txn, TxnId};
use std::alloc::Global;
use std::marker::Model;

/// Commits in the order in which they came, each once.
#[derive(Drop)]
pub(crate) struct Commits {
    received: Vec<Received>,
    // the attempt of each commit, at its place
    ids: IndexSet<TxnId>,
    // the places of all commits, and of those of each column
    order: Vec<Entry>,
    columns: Vec<Vec<Entry>>,
}

impl Model for Commits {
    ghost use Rattle.std.specs.Prelude.{length};
    ghost use Rattle.mk_follow.specs.Commits.{CommitsState, CommitsKept, entries_in};

    ghost Value = { CommitsState };

    ghost view = { λ c. record { columns = length c.columns.items; commits = c.received.items } };

    ghost invariant = { λ c. CommitsKept c.received.items c.ids.keys c.order.items (entries_in c.columns.items) };
}

// Makes room for one more entry of a column.
fn reserve_in(columns: &mut Vec<Vec<Entry>>, column: u32) -> Result<(), NoMemory>
    requires { column < length columns.old.items }
    ensures same { entries_in columns.new.items ≡ entries_in columns.old.items }
    ensures room { OnOk result (HasRoom column columns.new.items) }
{
    columns[column as usize].reserve(1)?;
    Ok(())
}

// Puts an entry of a column at its place. There is room for it.
fn put_in(columns: &mut Vec<Vec<Entry>>, column: u32, stamp: Stamp, place: usize)
    requires column { column < length columns.old.items }
    requires ascending { Each IsAscending (entries_in columns.old.items) }
    requires room { HasRoom column columns.old.items }
    ensures { entries_in columns.new.items ≡ slice_set (entries_in columns.old.items) column (placed (stamp, place) (slice_index_or (entries_in columns.old.items) column [])) }
{
    put(&mut columns[column as usize], stamp, place);
}

impl Commits {
    pub(crate) fn new(alloc: Global, columns: u32) -> Result<Commits, NoMemory>
        ensures { IfOk result (λ c. c ≡ record { columns = columns; commits = [] }) }
    {
        let mut orders = Vec::new(alloc);
        for _ in 0..columns {
            orders.push(Vec::new(alloc))?;
        }
        Ok(Commits {
            received: Vec::new(alloc),
            ids: IndexSet::new(alloc),
            order: Vec::new(alloc),
            columns: orders,
        })
    }

    /// Whether a commit of this attempt was received.
    pub(crate) fn has(&self, id: TxnId) -> bool
        ensures { result ≡ has_id id self.now.commits }
    {
        self.ids.contains(&id)
    }

    /// Keeps a commit of which none was received.
    pub(crate) fn push(&mut self, column: u32, txn: Txn) -> Result<(), NoMemory>
        requires column { column < self.old.columns }
        requires new { has_id txn.id self.old.commits ≡ false }
        ensures ok { OnOk result (self.new ≡ record self.old { commits = self.old.commits ++ record { column = column; txn = txn } ∷ [] }) }
        ensures err { OnErr result (self.new ≡ self.old) }
    {
        let stamp = txn.stamp();
        let place = self.received.len();
        self.received.reserve(1)?;
        self.order.reserve(1)?;
        reserve_in(&mut self.columns, column)?;
        self.ids.insert(txn.id())?;
        put_in(&mut self.columns, column, stamp, place);
        put(&mut self.order, stamp, place);
        self.received.push_reserved(Received { column, txn });
        Ok(())
    }

    /// The commit that was kept last.
    pub(crate) fn last(&self) -> Option<&Received>
        ensures last { (all : List Commit) (r : Commit) → self.now.commits ≡ all ++ r ∷ [] → option_copied result ≡ Some r }
        ensures among { IfSome result (λ r. Among r.now self.now.commits) }
    {
        self.received.last()
    }

    /// How many commits of the column have stamps at or below this one.
    pub(crate) fn counted(&self, column: u32, stamp: Stamp) -> u64
        requires { column < self.now.columns }
        ensures { result ≡ counted_in column stamp self.now.commits }
    {
        upto(self.columns[column as usize].as_slice(), stamp) as u64
    }

    /// How many commits have stamps above this one.
    pub(crate) fn above(&self, stamp: Stamp) -> u64
        ensures { result ≡ count_by (λ r. not (is_upto stamp r)) self.now.commits }
    {
        (self.received.len() - upto(self.order.as_slice(), stamp)) as u64
    }

    /// The commit with the least stamp above this one.
    pub(crate) fn next_above(&self, stamp: Stamp) -> Option<&Received>
        ensures { IsNextAbove stamp self.now.commits (option_copied result) }
    {
        let place = upto(self.order.as_slice(), stamp);
        let entry = self.order.get(place)?;
        self.received.get(entry.1)
    }
}
