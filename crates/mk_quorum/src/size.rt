//! How many replicas there are, and how many answers decide.
ghost use Rattle.std.specs.Prelude.{◌≡◌, ℕ, ◌≤◌, IfSome, IsSome, ◌↔◌};
ghost use Rattle.mk_quorum.specs.Sizes.{members, majority_of, fast_of, hint_of, block_of, MajoritiesMeet, FastMeetsMajority, FastLeavesHint, HintsMeet, BlockStopsFast, SizesAscend, FastLeavesFewOthers};

use std::marker::Model;

/// The number f of faults that a store survives, 1 to 3. It has 2f + 1 replicas.
#[derive(Clone, Copy)]
pub struct Size {
    faults: u32,
}

impl Model for Size {
    ghost use Rattle.std.specs.Prelude.{ℕ, ◌≤◌};

    ghost Value = { ℕ };

    ghost view = { λ size. size.faults };

    ghost invariant = { λ size. (1 ≤ size.faults) × (size.faults ≤ 3) };

    ghost inverse = { λ f. record { faults = f } };
}

impl Size {
    /// None exactly where f is not 1, 2 or 3.
    pub fn new(f: u32) -> Option<Size>
        ensures there { IsSome result ↔ ((1 ≤ f) × (f ≤ 3)) }
        ensures value { IfSome result (λ size. size ≡ f) }
    {
        if 1 <= f && f <= 3 {
            Some(Size { faults: f })
        } else {
            None
        }
    }

    pub fn f(&self) -> u32
        ensures value { result ≡ self.now }
        ensures range { (1 ≤ self.now) × (self.now ≤ 3) }
    {
        self.faults
    }

    /// How many replicas there are.
    pub fn n(&self) -> u32
        ensures { result ≡ members self.now }
    {
        2 * self.faults + 1
    }

    /// How many replicas decide on the slow path.
    pub fn majority(&self) -> u32
        ensures { result ≡ majority_of self.now }
    {
        self.faults + 1
    }

    /// How many equal votes decide at once.
    pub fn fast(&self) -> u32
        ensures { result ≡ fast_of self.now }
    {
        self.faults + self.faults.div_ceil(2) + 1
    }

    /// How many of a majority still tell that a fast decision may have been made.
    pub fn hint(&self) -> u32
        ensures { result ≡ hint_of self.now }
    {
        self.faults.div_ceil(2) + 1
    }

    /// How many replicas that cannot give a vote rule out that enough did.
    pub fn block(&self) -> u32
        ensures { result ≡ block_of self.now }
    {
        self.faults / 2 + 1
    }
}

/// The laws of the sizes: what sets of so many replicas have in common.
pub fn sizes_fit()
    ensures majorities_meet { (f : ℕ) → MajoritiesMeet f }
    ensures fast_meets_majority { (f : ℕ) → FastMeetsMajority f }
    ensures fast_leaves_hint { (f : ℕ) → FastLeavesHint f }
    ensures hints_meet { (f : ℕ) → HintsMeet f }
    ensures block_stops_fast { (f : ℕ) → BlockStopsFast f }
    ensures ascend { (f : ℕ) → SizesAscend f }
    ensures fast_leaves_few_others { (f : ℕ) → FastLeavesFewOthers f }
{}
