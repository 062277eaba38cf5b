//! Stamps in ascending order.
ghost use Rattle.std.specs.Prelude.{◌≡◌, ◌≤◌, Bool, true, false, ◌||◌, [], length, IfOk};
ghost use Rattle.std.specs.List.{list_any};
ghost use Rattle.std.specs.List.Sorted.{IsPartitionPoint};
ghost use Rattle.mk_txn.specs.declared.Stamp.{Stamp as StampValue};
ghost use Rattle.mk_txn.specs.Stamps.{is_before};
ghost use Rattle.mk_merge.specs.Ascending.{IsAscending, has_between as is_one_between};

use mk_txn::{NoMemory, Stamp, precedes};
use std::alloc::Global;
use std::marker::Model;

// Up to where the stamps are not after this one.
fn end_upto(stamps: &[Stamp], stamp: Stamp) -> usize
    requires { IsAscending stamps.now }
    ensures bound { result ≤ length stamps.now }
    ensures split { IsPartitionPoint (λ other. is_before stamp other ≡ false) (λ other. is_before stamp other ≡ true) stamps.now result }
{
    stamps.partition_point(|other| !precedes(stamp, *other))
}

// Stamps, none of them before one in front of it.
#[derive(Drop)]
pub(crate) struct Stamps {
    list: Vec<Stamp>,
}

impl Model for Stamps {
    ghost use Rattle.std.specs.Prelude.{List};
    ghost use Rattle.mk_txn.specs.declared.Stamp.{Stamp};
    ghost use Rattle.mk_merge.specs.Ascending.{IsAscending};

    ghost Value = { List Stamp };

    ghost view = { λ stamps. stamps.list.items };

    ghost invariant = { λ stamps. IsAscending stamps.list.items };
}

impl Stamps {
    pub(crate) fn new(alloc: Global) -> Stamps
        ensures { result ≡ [] }
    {
        Stamps {
            list: Vec::new(alloc),
        }
    }

    // The stamps and one more.
    pub(crate) fn with(self, stamp: Stamp) -> Result<Stamps, NoMemory>
        ensures { IfOk result (λ stamps. (test : StampValue → Bool) → list_any test stamps ≡ (list_any test self || test stamp)) }
    {
        let mut list = self.list;
        let place = end_upto(list.as_slice(), stamp);
        list.insert(place, stamp)?;
        Ok(Stamps { list })
    }

    // Whether one of them lies between the two.
    pub(crate) fn has_between(&self, low: Stamp, high: Stamp) -> bool
        ensures { result ≡ is_one_between low high self.now }
    {
        let place = end_upto(self.list.as_slice(), low);
        place < self.list.len() && precedes(self.list[place], high)
    }
}
