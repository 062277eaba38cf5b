//! What a base's commits leave at keys.
ghost use Rattle.std.specs.Prelude.{◌≡◌, not, replicate, IfOk};
ghost use Rattle.std.specs.List.{list_all};
ghost use Rattle.mk_txn.specs.Stamps.{is_before};
ghost use Rattle.mk_txn.specs.LatestWrites.{after_writes};
ghost use Rattle.mk_words.specs.Bases.{commits_in};
ghost use Rattle.mk_words.specs.Rebuilding.{rebuilt, fits_base};
ghost use Rattle.mk_merge_laws.specs.Lefts.{nothing_left, after_reads, after_commit, left_by, AreWritten, AreRead, AreLeft, AreRebuilt};

use crate::{Base, Fated};
use mk_cell::Cell;
use mk_txn::{NoMemory, Outcome, Stamp, Txn, Value, later, precedes};
use std::alloc::Global;
use std::marker::Model;

/// What commits leave at a key: its latest write, and the greatest stamp of a read.
#[derive(Clone, Copy)]
pub struct Left {
    value: Value,
    wts: Stamp,
    rts: Stamp,
}

impl Model for Left {
    ghost use Rattle.mk_merge_laws.specs.Lefts.{LeftState};

    ghost Value = { LeftState };

    ghost view = { λ left. record { latest = record { version = left.wts; value = left.value }; rts = left.rts } };

    ghost inverse = { λ left. record { value = left.latest.value; wts = left.latest.version; rts = left.rts } };
}

impl Left {
    ghost use Rattle.mk_merge_laws.specs.Lefts.{nothing_left, with_write, with_read, after_commit, cell_left};

    /// What no commit leaves: the number 0 at stamp 0.0, and no read.
    pub fn nothing() -> Left
        ensures { result ≡ nothing_left }
    {
        let start = Stamp { time: 0, client: 0 };
        Left {
            value: Value::Number(0),
            wts: start,
            rts: start,
        }
    }

    /// The stamp of the latest write.
    pub fn wts(&self) -> Stamp
        ensures { result ≡ self.now.latest.version }
    {
        self.wts
    }

    /// The greatest stamp of a read.
    pub fn rts(&self) -> Stamp
        ensures { result ≡ self.now.rts }
    {
        self.rts
    }

    /// A write of this stamp stands from then on, unless a later one does.
    pub fn write(&mut self, stamp: Stamp, value: Value)
        ensures { self.new ≡ with_write stamp value self.old }
    {
        if !precedes(stamp, self.wts) {
            self.wts = stamp;
            self.value = value;
        }
    }

    /// A read of this stamp counts from then on.
    pub fn read(&mut self, stamp: Stamp)
        ensures { self.new ≡ with_read stamp self.old }
    {
        self.rts = later(self.rts, stamp);
    }

    // One more commit, at this key.
    fn add(&mut self, key: u32, txn: &Txn)
        ensures { self.new ≡ after_commit key txn.now self.old }
    {
        self.add_writes(key, txn);
        self.add_reads(key, txn);
    }

    fn add_writes(&mut self, key: u32, txn: &Txn)
        ensures latest { self.new.latest ≡ after_writes key txn.now.stamp self.old.latest txn.now.writes }
        ensures rts { self.new.rts ≡ self.old.rts }
    {
        for item in txn.writes() {
            if item.key == key {
                self.write(txn.stamp(), item.value);
            }
        }
    }

    fn add_reads(&mut self, key: u32, txn: &Txn)
        ensures latest { self.new.latest ≡ self.old.latest }
        ensures rts { self.new.rts ≡ after_reads key txn.now.stamp self.old.rts txn.now.reads }
    {
        for item in txn.reads() {
            if item.key == key {
                self.read(txn.stamp());
            }
        }
    }

    /// The cell of such a key, with nothing pending.
    pub fn cell(&self, alloc: Global) -> Cell
        ensures { result.state ≡ cell_left self.now }
    {
        Cell::of(alloc, self.value, self.wts, self.rts)
    }
}

// What the commits of the list leave at the key.
fn left_at(list: &[Fated], key: u32) -> Left
    ensures { result ≡ left_by key nothing_left (commits_in list.now) }
{
    let mut left = Left::nothing();
    for fated in list {
        if fated.outcome == Outcome::Commit {
            left.add(key, &fated.txn);
        }
    }
    left
}

// Nothing left at each key below this number.
fn nothing_at(alloc: Global, keys: u32) -> Result<Vec<Left>, NoMemory>
    ensures { IfOk result (λ lefts. lefts.items ≡ replicate keys nothing_left) }
{
    let mut lefts = Vec::new(alloc);
    for _ in 0..keys {
        lefts.push(Left::nothing())?;
    }
    Ok(lefts)
}

// The writes of one more commit, at every key.
fn write_everywhere(lefts: &mut [Left], txn: &Txn)
    ensures { AreWritten txn.now.stamp txn.now.writes lefts.old lefts.new }
{
    let stamp = txn.stamp();
    for item in txn.writes() {
        let key = item.key as usize;
        if key < lefts.len() {
            lefts[key].write(stamp, item.value);
        }
    }
}

// The reads of one more commit, at every key.
fn read_everywhere(lefts: &mut [Left], txn: &Txn)
    ensures { AreRead txn.now.stamp txn.now.reads lefts.old lefts.new }
{
    let stamp = txn.stamp();
    for item in txn.reads() {
        let key = item.key as usize;
        if key < lefts.len() {
            lefts[key].read(stamp);
        }
    }
}

// What the commits of the list leave at each key below `keys`.
fn lefts_at(alloc: Global, list: &[Fated], keys: u32) -> Result<Vec<Left>, NoMemory>
    ensures { IfOk result (λ lefts. AreLeft (commits_in list.now) keys lefts.items) }
{
    let mut lefts = nothing_at(alloc, keys)?;
    for fated in list {
        if fated.outcome == Outcome::Commit {
            write_everywhere(&mut lefts, &fated.txn);
            read_everywhere(&mut lefts, &fated.txn);
        }
    }
    Ok(lefts)
}

impl Base {
    // The stamp of the key's last write.
    fn wts(&self, key: u32) -> Stamp
        ensures { result ≡ (rebuilt self.now key).wts }
    {
        left_at(self.list(), key).wts
    }

    // The greatest stamp of a read of the key.
    fn rts(&self, key: u32) -> Stamp
        ensures { result ≡ (rebuilt self.now key).rts }
    {
        left_at(self.list(), key).rts
    }

    // Whether each read is of a version not below the last write of its key.
    fn reads_fit(&self, txn: &Txn) -> bool
        ensures { result ≡ list_all (λ item. not (is_before item.version (rebuilt self.now item.key).wts)) txn.now.reads }
    {
        txn.reads()
            .iter()
            .all(|item| !precedes(item.version, self.wts(item.key)))
    }

    // Whether no write is below the last read of its key.
    fn writes_fit(&self, txn: &Txn) -> bool
        ensures { result ≡ list_all (λ item. not (is_before txn.now.stamp (rebuilt self.now item.key).rts)) txn.now.writes }
    {
        let stamp = txn.stamp();
        txn.writes()
            .iter()
            .all(|item| !precedes(stamp, self.rts(item.key)))
    }

    // Whether the transaction fits the rebuilt cells.
    pub(crate) fn is_fit(&self, txn: &Txn) -> bool
        ensures { result ≡ fits_base self.now txn.now }
    {
        self.reads_fit(txn) && self.writes_fit(txn)
    }

    // The rebuilt cells of the keys below `keys`.
    pub(crate) fn rebuilt_cells(&self, keys: u32) -> Result<Vec<Cell>, NoMemory>
        ensures { IfOk result (λ cells. AreRebuilt self.now keys cells.items) }
    {
        let alloc = *self.list.allocator();
        let lefts = lefts_at(alloc, self.list(), keys)?;
        let mut cells = Vec::new(alloc);
        for left in lefts.iter() {
            cells.push(left.cell(alloc))?;
        }
        Ok(cells)
    }
}
