//! Stamps in ascending order, and the search among them.
ghost use Rattle.std.specs.Prelude.{◌≡◌, ℕ, ◌+◌, ◌<◌, ◌≤◌, ◌^◌, List, length, Some, slice_get};
ghost use Rattle.mk_txn.specs.declared.Stamp.{Stamp};
ghost use Rattle.mk_words.specs.Pending.{IsAscending};
ghost use Rattle.mk_cell.specs.Searching.{place_above, HasDigits};

use crate::Steps;
use mk_txn::{Stamp, precedes};
use std::sync::ledger::Ledger;

/// Stamps in ascending order, at places from 0 on.
pub trait Places {
    ghost places: { Self → List Stamp };

    /// How many stamps there are.
    fn count(&self) -> usize
        ensures count { result ≡ length (places self.now) }
        ensures ascending { IsAscending (places self.now) };

    /// The stamp at a place below the count. This is one step.
    fn at<L: Ledger>(&self, place: usize, steps: &mut Steps<L>) -> Stamp
        requires { place < length (places self.now) }
        ensures stamp { slice_get (places self.now) place ≡ Some result }
        ensures cost { steps.new ≡ steps.old + 1 };
}

/// The first place whose stamp is after `stamp`, or the count where there is none. It takes no more steps than the
/// count has binary digits.
pub fn first_above<P: Places, L: Ledger>(places: &P, stamp: Stamp, steps: &mut Steps<L>) -> usize
    ensures place { result ≡ place_above stamp (P.places places.now) }
    ensures cost { (digits : ℕ) → HasDigits (length (P.places places.now)) digits → steps.new ≤ steps.old + digits }
{
    let mut low = 0;
    let mut high = places.count();
    while low < high {
        let middle = low + (high - low) / 2;
        let found = places.at(middle, steps);
        if precedes(stamp, found) {
            high = middle;
        } else {
            low = middle + 1;
        }
    }
    low
}
