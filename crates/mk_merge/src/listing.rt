//! A base, as the list of its transactions.
ghost use Rattle.std.specs.Prelude.{◌≡◌, [], IfOk};
ghost use Rattle.mk_txn.specs.MarkMaps.{IsMarkMap};
ghost use Rattle.mk_words.specs.Bases.{IsBase, IsInIdOrder, empty_base, fate_in, kept_of};

use crate::{Base, Fated};
use mk_trim::Kept;
use mk_txn::{Marks, NoMemory, Outcome, TxnId};
use std::alloc::Global;

impl Base {
    /// No transactions, and all marks 0.
    pub fn new(alloc: Global) -> Base
        ensures { result ≡ empty_base }
    {
        Base {
            list: Vec::new(alloc),
            kept: Kept::new(alloc),
        }
    }

    /// These transactions with their outcomes, and all marks 0.
    pub fn of(alloc: Global, fated: Vec<Fated>) -> Result<Base, NoMemory>
        requires { IsInIdOrder fated.items }
        ensures { IfOk result (λ base. base ≡ record { list = fated.items; marks = [] }) }
    {
        Base::marked(alloc, fated, &Marks::new(alloc))
    }

    // These transactions with their outcomes under these marks.
    pub(crate) fn marked(alloc: Global, list: Vec<Fated>, marks: &Marks) -> Result<Base, NoMemory>
        requires ordered { IsInIdOrder list.items }
        requires marked { IsMarkMap marks.now }
        ensures { IfOk result (λ base. base ≡ record { list = list.items; marks = marks.now }) }
    {
        let mut kept = Kept::new(alloc);
        kept.cover(marks)?;
        for fated in list.iter() {
            kept.put(fated.txn.id(), fated.outcome)?;
        }
        Ok(Base { list, kept })
    }

    /// The outcome that the list has of the attempt, covered or not.
    pub fn fate(&self, id: TxnId) -> Option<Outcome>
        ensures { result ≡ fate_in id self.now.list }
    {
        match self.list.binary_search_by_key(&id, |fated| fated.txn.id()) {
            Ok(place) => Some(self.list[place].outcome),
            Err(_) => None,
        }
    }

    /// The transactions with their outcomes, in order of their numbers, covered ones among them.
    pub fn list(&self) -> &[Fated]
        ensures value { result.now ≡ self.now.list }
        ensures fits { IsBase self.now }
    {
        self.list.as_slice()
    }

    // The outcomes that the marks do not cover, and the marks.
    pub(crate) fn kept(&self) -> &Kept
        ensures { result.now ≡ kept_of self.now }
    {
        &self.kept
    }

    pub(crate) fn copied(&self) -> Result<Base, NoMemory>
        ensures { IfOk result (λ base. base ≡ self.now) }
    {
        let mut list = Vec::new(*self.list.allocator());
        for fated in self.list.iter() {
            list.push(fated.copy()?)?;
        }
        Ok(Base {
            list,
            kept: self.kept.copy()?,
        })
    }
}
