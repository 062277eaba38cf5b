//! The marks of a column.
ghost use Rattle.std.specs.Prelude.{◌≡◌, ◌<◌, [], length, OnOk, OnErr};
ghost use Rattle.mk_lists.specs.Among.{Each};
ghost use Rattle.mk_txn.specs.Stamps.{zero_stamp};
ghost use Rattle.mk_feed_words.specs.Feed.{earlier_stamp, is_met as meets, least_over};
ghost use Rattle.mk_follow.specs.Kept.{reached_at};
ghost use Rattle.mk_follow.specs.Lanes.{after_waiting, reached_out_of, marks_above, waiting_after};

use crate::commits::Commits;
use mk_feed_words::Mark;
use mk_txn::{NoMemory, Stamp, later, precedes};
use std::alloc::Global;

/// The greatest mark of a column that is met, and the marks above it, which wait for commits.
#[derive(Drop)]
pub(crate) struct Lane {
    pub(crate) waiting: Vec<Mark>,
    pub(crate) reached: Stamp,
}

// Whether at least as many commits as the mark counts were received.
fn is_met(commits: &Commits, mark: &Mark) -> bool
    requires { mark.now.column < commits.now.columns }
    ensures { result ≡ meets commits.now.commits mark.now }
{
    mark.count <= commits.counted(mark.column, mark.upto)
}

// The greatest of the stamp and those of these marks that are met.
fn reached_of(commits: &Commits, stamp: Stamp, waiting: &[Mark]) -> Stamp
    requires { Each (λ mark. mark.column < commits.now.columns) waiting.now }
    ensures { result ≡ reached_out_of commits.now.commits stamp waiting.now }
{
    let mut reached = stamp;
    for mark in waiting {
        if is_met(commits, mark) {
            reached = later(reached, mark.upto);
        }
    }
    reached
}

impl Lane {
    /// No marks.
    pub(crate) fn new(alloc: Global) -> Lane
        ensures { (result.waiting.items ≡ []) × (result.reached ≡ zero_stamp) }
    {
        Lane {
            waiting: Vec::new(alloc),
            reached: Stamp { time: 0, client: 0 },
        }
    }

    /// Takes up the marks that the commits meet by now.
    pub(crate) fn settle(&mut self, commits: &Commits)
        requires { Each (λ mark. mark.column < commits.now.columns) self.old.waiting.items }
        ensures reached { self.new.reached ≡ reached_out_of commits.now.commits self.old.reached self.old.waiting.items }
        ensures waiting { self.new.waiting.items ≡ marks_above self.new.reached self.old.waiting.items }
    {
        let reached = reached_of(commits, self.reached, self.waiting.as_slice());
        self.reached = reached;
        self.waiting.retain(|mark| precedes(reached, mark.upto));
    }

    /// Takes a mark up where the commits meet it, and else keeps it where it lies above what is reached.
    pub(crate) fn add(&mut self, commits: &Commits, mark: Mark) -> Result<(), NoMemory>
        requires { mark.column < commits.now.columns }
        ensures reached { OnOk result (self.new.reached ≡ after_waiting commits.now.commits self.old.reached mark) }
        ensures waiting { OnOk result (self.new.waiting.items ≡ waiting_after commits.now.commits self.old.reached mark self.old.waiting.items) }
        ensures err { OnErr result ((self.new.reached ≡ self.old.reached) × (self.new.waiting.items ≡ self.old.waiting.items)) }
    {
        if is_met(commits, &mark) {
            self.reached = later(self.reached, mark.upto);
        } else if precedes(self.reached, mark.upto) {
            self.waiting.push(mark)?;
        }
        Ok(())
    }
}

// The one of two stamps that is not after the other.
fn earlier(a: Stamp, b: Stamp) -> Stamp
    ensures { result ≡ earlier_stamp a b }
{
    if precedes(b, a) { b } else { a }
}

/// The least stamp that the lanes have reached.
pub(crate) fn least(lanes: &[Lane]) -> Stamp
    requires { 0 < length lanes.now }
    ensures { result ≡ least_over (reached_at lanes.now) (length lanes.now) }
{
    let mut stamp = lanes[0].reached;
    for column in 1..lanes.len() {
        stamp = earlier(stamp, lanes[column].reached);
    }
    stamp
}
