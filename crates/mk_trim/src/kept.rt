//! Outcomes that are kept until their clients have learned them.
ghost use Rattle.std.specs.Prelude.{◌≡◌, OnOk, OnErr, IfOk};

use crate::outcomes::{drop_covered, find, put};
use mk_txn::{Known, Marks, NoMemory, Outcome, TxnId};
use std::alloc::Global;
use std::marker::Model;

/// Outcomes in order of attempt, and the marks up to which outcomes are forgotten.
#[derive(Drop)]
pub struct Kept {
    outcomes: Vec<(TxnId, Outcome)>,
    marks: Marks,
}

impl Model for Kept {
    ghost use Rattle.mk_words.specs.KeptOutcomes.{KeptOutcomes, IsKept};

    ghost Value = { KeptOutcomes };

    ghost view = { λ kept. record { outcomes = kept.outcomes.items; marks = kept.marks } };

    ghost invariant = { λ kept. IsKept (record { outcomes = kept.outcomes.items; marks = kept.marks }) };
}

impl Kept {
    ghost use Rattle.mk_words.specs.KeptOutcomes.{IsKept, nothing_kept, with_outcome, covered_by, known_of, commit_count, abort_count};

    /// Nothing kept, and all marks 0.
    pub fn new(alloc: Global) -> Kept
        ensures { result ≡ nothing_kept }
    {
        Kept {
            outcomes: Vec::new(alloc),
            marks: Marks::new(alloc),
        }
    }

    /// Keeps the outcome, unless the attempt is covered or has an outcome already.
    pub fn put(&mut self, id: TxnId, outcome: Outcome) -> Result<(), NoMemory>
        ensures ok { OnOk result (self.new ≡ with_outcome id outcome self.old) }
        ensures err { OnErr result (self.new ≡ self.old) }
    {
        if self.marks.covers(id) {
            return Ok(());
        }
        put(&mut self.outcomes, id, outcome)?;
        Ok(())
    }

    /// Raises each client's mark to what it is in `marks`, and forgets the outcomes that are covered then.
    pub fn cover(&mut self, marks: &Marks) -> Result<(), NoMemory>
        ensures ok { OnOk result (self.new ≡ covered_by marks.now self.old) }
        ensures err { OnErr result (self.new ≡ self.old) }
    {
        self.marks.join(marks)?;
        drop_covered(&mut self.outcomes, &self.marks);
        Ok(())
    }

    /// What is known of the attempt: that it is forgotten where its client's mark covers it, else its outcome where
    /// one is kept, else nothing.
    pub fn fate(&self, id: TxnId) -> Known
        ensures { result ≡ known_of self.now id }
    {
        if self.marks.covers(id) {
            return Known::Forgotten;
        }
        match find(self.outcomes.as_slice(), id) {
            Some(outcome) => Known::Outcome(outcome),
            None => Known::Absent,
        }
    }

    /// The kept outcomes, in order of attempt.
    pub fn list(&self) -> &[(TxnId, Outcome)]
        ensures value { result.now ≡ self.now.outcomes }
        ensures fits { IsKept self.now }
    {
        self.outcomes.as_slice()
    }

    pub fn marks(&self) -> &Marks
        ensures value { result.now ≡ self.now.marks }
        ensures fits { IsKept self.now }
    {
        &self.marks
    }

    /// How many of the kept outcomes are commits.
    pub fn commits(&self) -> u64
        ensures { result ≡ commit_count self.now.outcomes }
    {
        self.outcomes
            .iter()
            .filter(|outcome| outcome.1 == Outcome::Commit)
            .count() as u64
    }

    /// How many of the kept outcomes are aborts.
    pub fn aborts(&self) -> u64
        ensures { result ≡ abort_count self.now.outcomes }
    {
        self.outcomes
            .iter()
            .filter(|outcome| outcome.1 != Outcome::Commit)
            .count() as u64
    }

    pub fn copy(&self) -> Result<Kept, NoMemory>
        ensures value { IfOk result (λ kept. kept ≡ self.now) }
        ensures fits { IfOk result IsKept }
    {
        let outcomes = self.outcomes.clone()?;
        let marks = self.marks.copy()?;
        Ok(Kept { outcomes, marks })
    }
}
