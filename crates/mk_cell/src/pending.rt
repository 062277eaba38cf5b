//! The pending stamps of a cell.
ghost use Rattle.std.specs.Prelude.{◌≡◌, ℕ, ◌+◌, ◌<◌, ◌≤◌, [], length, OnOk, IfOk, IfErr, insert, remove};
ghost use Rattle.mk_words.specs.Pending.{joined, without, least_below as least_before, least_above as least_after};
ghost use Rattle.mk_cell.specs.Searching.{HasDigits};

use crate::{Places, Steps, first_above};
use mk_txn::{NoMemory, Stamp, precedes, same_stamp};
use std::alloc::Global;
use std::marker::Model;
use std::sync::ledger::Ledger;

/// Stamps in ascending order, each at most once.
#[derive(Drop)]
pub struct Pending {
    stamps: Vec<Stamp>,
}

impl Model for Pending {
    ghost use Rattle.std.specs.Prelude.{◌-◌, vec_len, vec_capacity};
    ghost use Rattle.mk_words.specs.Pending.{PendingView, IsAscending};

    ghost Value = { PendingView };

    ghost view = { λ pending. record { stamps = pending.stamps.items; spare = vec_capacity pending.stamps - vec_len pending.stamps } };

    ghost invariant = { λ pending. IsAscending pending.stamps.items };
}

impl Places for Pending {
    ghost places = { λ pending. pending.stamps };

    fn count(&self) -> usize {
        self.stamps.len()
    }

    fn at<L: Ledger>(&self, place: usize, steps: &mut Steps<L>) -> Stamp {
        steps.tick();
        self.stamps[place]
    }
}

impl Pending {
    pub fn new(alloc: Global) -> Pending
        ensures { result.stamps ≡ [] }
    {
        Pending {
            stamps: Vec::new(alloc),
        }
    }

    /// Makes room for one stamp more.
    pub fn reserve(&mut self) -> Result<(), NoMemory>
        ensures same { self.new.stamps ≡ self.old.stamps }
        ensures kept { self.old.spare ≤ self.new.spare }
        ensures room { OnOk result (1 ≤ self.new.spare) }
    {
        if self.stamps.reserve(1).is_err() {
            return Err(NoMemory);
        }
        Ok(())
    }

    /// The least stamp, where it is before `bound`.
    pub fn least_below<L: Ledger>(&self, bound: Stamp, steps: &mut Steps<L>) -> Option<Stamp>
        ensures least { result ≡ least_before bound self.now.stamps }
        ensures cost { steps.new ≤ steps.old + 1 }
    {
        if self.count() == 0 {
            return None;
        }
        let least = self.at(0, steps);
        if precedes(least, bound) {
            Some(least)
        } else {
            None
        }
    }

    /// The least stamp after `bound`.
    pub fn least_above<L: Ledger>(&self, bound: Stamp, steps: &mut Steps<L>) -> Option<Stamp>
        ensures least { result ≡ least_after bound self.now.stamps }
        ensures cost { (digits : ℕ) → HasDigits (length self.now.stamps) digits → steps.new ≤ steps.old + digits + 1 }
    {
        let place = first_above(self, bound, steps);
        if place < self.count() {
            Some(self.at(place, steps))
        } else {
            None
        }
    }

    // Ok with the place of the stamp, or Err with the place where it is to stand.
    fn find<L: Ledger>(&self, stamp: Stamp, steps: &mut Steps<L>) -> Result<usize, usize>
        ensures here { IfOk result (λ place. (place < length self.now.stamps) × (joined stamp self.now.stamps ≡ self.now.stamps) × (without stamp self.now.stamps ≡ remove self.now.stamps place)) }
        ensures nowhere { IfErr result (λ place. (place ≤ length self.now.stamps) × (joined stamp self.now.stamps ≡ insert self.now.stamps place stamp) × (without stamp self.now.stamps ≡ self.now.stamps)) }
        ensures cost { (digits : ℕ) → HasDigits (length self.now.stamps) digits → steps.new ≤ steps.old + digits + 1 }
    {
        let _ = &self.stamps;
        let place = first_above(self, stamp, steps);
        if place == 0 {
            return Err(place);
        }
        let last = self.at(place - 1, steps);
        if same_stamp(last, stamp) {
            Ok(place - 1)
        } else {
            Err(place)
        }
    }

    /// Puts the stamp in its place, if it is not there.
    pub fn join<L: Ledger>(&mut self, stamp: Stamp, steps: &mut Steps<L>)
        requires { 1 ≤ self.old.spare }
        ensures stamps { self.new.stamps ≡ joined stamp self.old.stamps }
        ensures cost { (digits : ℕ) → HasDigits (length self.old.stamps) digits → steps.new ≤ steps.old + digits + 1 }
    {
        if let Err(place) = self.find(stamp, steps) {
            if self.stamps.insert(place, stamp).is_err() {
                unreachable!();
            }
        }
    }

    /// Takes the stamp out, if it is there.
    pub fn leave<L: Ledger>(&mut self, stamp: Stamp, steps: &mut Steps<L>)
        ensures stamps { self.new.stamps ≡ without stamp self.old.stamps }
        ensures room { self.old.spare ≤ self.new.spare }
        ensures cost { (digits : ℕ) → HasDigits (length self.old.stamps) digits → steps.new ≤ steps.old + digits + 1 }
    {
        if let Ok(place) = self.find(stamp, steps) {
            let _ = self.stamps.remove(place);
        }
    }
}
