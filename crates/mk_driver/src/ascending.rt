//! Ascending lists of message numbers.
ghost use Rattle.std.specs.Prelude.{◌≡◌, ◌<◌, ◌≤◌, ℕ, true, false, length, nat_lt, slice_index, slice_get, OnOk, OnErr};
ghost use Rattle.mk_driver.specs.Agenda.{in_order};
ghost use Rattle.mk_driver.specs.Parts.{after_number};

use crate::Numbers;
use mk_txn::NoMemory;

impl Numbers {
    /// The place of the first number above this one, found from the end.
    fn place_of(&self, number: u64) -> usize
        ensures before { (k : ℕ) → k < result → nat_lt number (slice_index self.now k) ≡ false }
        ensures at { result < length self.now → nat_lt number (slice_index self.now result) ≡ true }
        ensures within { result ≤ length self.now }
    {
        let mut at = self.list.len();
        while at > 0 {
            if self.list[at - 1] <= number {
                return at;
            }
            at -= 1;
        }
        at
    }

    /// A number is put into its place.
    pub(crate) fn insert(&mut self, number: u64) -> Result<(), NoMemory>
        ensures ok { OnOk result (self.new ≡ in_order number self.old) }
        ensures err { OnErr result (self.new ≡ self.old) }
    {
        let at = self.place_of(number);
        self.list.insert(at, number)?;
        Ok(())
    }

    pub(crate) fn first(&self) -> Option<u64>
        ensures { result ≡ slice_get self.now 0 }
    {
        self.list.front().copied()
    }

    /// The first number goes.
    pub(crate) fn drop_first(&mut self)
        ensures { self.new ≡ after_number self.old }
    {
        let _ = self.list.pop_front();
    }
}
