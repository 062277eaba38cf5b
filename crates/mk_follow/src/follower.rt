//! The follower.
ghost use Rattle.std.specs.Prelude.{◌≡◌, ◌<◌, ◌≤◌, [], ◌∷◌, ◌++◌, false, length, IfOk, OnOk, OnErr};
ghost use Rattle.mk_lists.specs.Among.{Each};
ghost use Rattle.mk_txn.specs.Stamps.{is_before, zero_stamp};
ghost use Rattle.mk_follow.specs.Rows.{HasKeys};
ghost use Rattle.mk_follow.specs.Following.{AfterCommit, CommitFits, watermark_of, shown_version, behind_of};

use crate::commits::Commits;
use crate::lane::{Lane, least};
use crate::rows::{Row, admit_last, rise};
use crate::rule::{KEYS, Subscription};
use mk_feed_words::Mark;
use mk_txn::{NoMemory, Stamp, Txn, Value};
use std::alloc::Global;
use std::marker::Model;

/// Whether a commit was new.
#[derive(Clone, Copy, Debug, PartialEq, Eq)]
pub enum Taken {
    New,
    Again,
}

/// The one copy up to a watermark. Contracts see the distinct commits and the marks that it received, its columns and
/// its rule. No call goes through all the commits that were received: a commit is found by its id and by its stamp, and
/// only the marks of its column that are not yet met are looked at.
#[derive(Drop)]
pub struct Follower {
    columns: u32,
    subscription: Subscription,
    commits: Commits,
    marks: Vec<Mark>,
    lanes: Vec<Lane>,
    rows: Vec<Row>,
    watermark: Stamp,
}

impl Model for Follower {
    ghost use Rattle.std.specs.Prelude.{◌≡◌};
    ghost use Rattle.mk_follow.specs.Following.{Following};
    ghost use Rattle.mk_follow.specs.Kept.{Kept};

    ghost Value = { Following };

    ghost view = { λ s. record { columns = s.columns; rule = s.subscription; commits = s.commits.commits; marks = s.marks.items } };

    ghost invariant = { λ s. (s.commits.columns ≡ s.columns) × Kept s.columns s.subscription s.commits.commits s.marks.items s.lanes.items s.rows.items s.watermark };
}

// A lane for each column.
fn new_lanes(alloc: Global, columns: u32) -> Result<Vec<Lane>, NoMemory>
    ensures { IfOk result (λ lanes. (length lanes.items ≡ columns) × Each (λ lane. (lane.waiting.items ≡ []) × (lane.reached ≡ zero_stamp)) lanes.items) }
{
    let mut lanes = Vec::new(alloc);
    for _ in 0..columns {
        lanes.push(Lane::new(alloc))?;
    }
    Ok(lanes)
}

impl Follower {
    /// It has received nothing. There are 1 to 8 columns.
    pub fn new(
        alloc: Global,
        columns: u32,
        subscription: Subscription,
    ) -> Result<Follower, NoMemory>
        requires { (0 < columns) × (columns ≤ 8) }
        ensures { IfOk result (λ f. f ≡ record { columns = columns; rule = subscription; commits = []; marks = [] }) }
    {
        let zero = Stamp { time: 0, client: 0 };
        let rows = Vec::from_elem(alloc, (zero, Value::Number(0)), KEYS)?;
        let commits = Commits::new(alloc, columns)?;
        let lanes = new_lanes(alloc, columns)?;
        Ok(Follower {
            columns,
            subscription,
            commits,
            marks: Vec::new(alloc),
            lanes,
            rows,
            watermark: zero,
        })
    }

    /// Takes a commit of a column, unless one of that attempt was received. After `NoMemory` nothing is changed.
    pub fn take_commit(&mut self, column: u32, txn: Txn) -> Result<Taken, NoMemory>
        requires column { column < self.old.columns }
        requires fits { CommitFits column txn self.old.commits }
        requires keys { HasKeys txn.writes }
        ensures ok { IfOk result (λ taken. AfterCommit taken self.old column txn self.new) }
        ensures err { OnErr result (self.new ≡ self.old) }
        ensures rises { is_before (watermark_of self.new) (watermark_of self.old) ≡ false }
    {
        if self.commits.has(txn.id()) {
            return Ok(Taken::Again);
        }
        self.commits.push(column, txn)?;
        admit_last(
            &mut self.rows,
            &self.subscription,
            &self.commits,
            self.watermark,
        );
        self.lanes[column as usize].settle(&self.commits);
        let high = least(self.lanes.as_slice());
        rise(
            &mut self.rows,
            &self.subscription,
            &self.commits,
            self.watermark,
            high,
        );
        self.watermark = high;
        Ok(Taken::New)
    }

    /// Takes a mark of a column: it has `count` commits with stamps at or below `upto`. After `NoMemory` nothing is
    /// changed.
    pub fn take_mark(&mut self, column: u32, upto: Stamp, count: u64) -> Result<(), NoMemory>
        requires { column < self.old.columns }
        ensures ok { OnOk result (self.new ≡ record self.old { marks = self.old.marks ++ record { column = column; upto = upto; count = count } ∷ [] }) }
        ensures err { OnErr result (self.new ≡ self.old) }
        ensures rises { is_before (watermark_of self.new) (watermark_of self.old) ≡ false }
    {
        let mark = Mark {
            column,
            upto,
            count,
        };
        self.marks.reserve(1)?;
        self.lanes[column as usize].add(&self.commits, mark)?;
        self.marks.push_reserved(mark);
        let high = least(self.lanes.as_slice());
        rise(
            &mut self.rows,
            &self.subscription,
            &self.commits,
            self.watermark,
            high,
        );
        self.watermark = high;
        Ok(())
    }

    /// How many columns it follows, 1 to 8.
    pub fn columns(&self) -> u32
        ensures { result ≡ self.now.columns }
    {
        self.columns
    }

    /// The stamp up to which the picture is complete, where the marks are honest. It never falls.
    pub fn watermark(&self) -> Stamp
        ensures { result ≡ watermark_of self.now }
    {
        self.watermark
    }

    /// What the picture at the watermark holds of a key below 256: version and value, or 0.0 and the number 0 where it
    /// holds none. None where the rule does not pick the key.
    pub fn get(&self, key: u32) -> Option<(Stamp, Value)>
        requires { key < 256 }
        ensures { result ≡ shown_version self.now key }
    {
        mk_copy_laws::latest_commits_stand();
        if self.subscription.picks(key) {
            Some(self.rows[key as usize])
        } else {
            None
        }
    }

    /// How many commits lie above the watermark.
    pub fn behind(&self) -> u64
        ensures { result ≡ behind_of self.now }
    {
        self.commits.above(self.watermark)
    }
}
