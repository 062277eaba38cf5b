//! What is said of a run: that it could have happened, or where it first could not.
//!
//! The function does nothing: what it promises is the law.
#![tactic(auto)]

ghost use Rattle.mk_verdict.specs.Exactness.{VerdictsAreExact, FirstFlawsAreFirst};

/// Why a run could not have happened.
#[derive(Clone, Copy, PartialEq, Eq)]
pub enum Flaw {
    /// A step is not enabled.
    Disabled,
    /// A log ends while a key call is wanted.
    Unfinished,
    /// The cell of a key, or the epoch machine, gives another answer.
    Answer,
    /// A journal's entries of a column are not that column's key steps.
    Unmatched,
}

/// Where in a round a flaw stands; entries count from 1.
#[derive(Clone, Copy, PartialEq, Eq)]
pub enum Place {
    /// In a column's log.
    Column {
        column: u32,
        entry: u64,
    },
    /// In the journal of a key at a replica.
    Cell {
        replica: u32,
        key: u32,
        entry: u64,
    },
    /// Among the entries of a column in the journal of a key at a replica.
    Match {
        replica: u32,
        key: u32,
        column: u32,
        entry: u64,
    },
    /// Among the global lines.
    Global {
        entry: u64,
    },
}

/// A flaw of a round, with its place.
#[derive(Clone, Copy, PartialEq, Eq)]
pub struct PlacedFlaw {
    pub place: Place,
    pub why: Flaw,
}

/// Whether a run could have happened.
#[derive(Clone, Copy, PartialEq, Eq)]
pub enum Verdict {
    Legal,
    /// The first flaw; rounds count from 1.
    Broken { round: u32, place: Place, why: Flaw },
}

/// A run has no flaw exactly where it is legal, and what comes before its first flaw is legal.
pub fn verdicts_are_exact()
    ensures exact { VerdictsAreExact }
    ensures first { FirstFlawsAreFirst }
{}
