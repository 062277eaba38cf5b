//! Transactions in order of stamp.
ghost use Rattle.std.specs.Prelude.{◌≡◌, IfOk, map};
ghost use Rattle.mk_words.specs.Bases.{in_stamp_order};
ghost use Rattle.mk_model.specs.OneCopy.{HaveDistinctStamps};

use mk_txn::{NoMemory, Stamp, Txn};
use std::alloc::Global;
use std::collections::BTreeMap;

// The transactions by their stamps.
pub(crate) fn by_stamp<'a>(
    alloc: Global,
    txns: &'a [Txn],
) -> Result<BTreeMap<Stamp, &'a Txn>, NoMemory>
    requires { HaveDistinctStamps txns.now }
    ensures { IfOk result (λ ordered. map (λ entry. entry.1.now) ordered.entries ≡ in_stamp_order txns.now) }
{
    let mut ordered = BTreeMap::new(alloc);
    for place in (0..txns.len()).rev() {
        let txn = &txns[place];
        ordered.insert(txn.stamp(), txn)?;
    }
    Ok(ordered)
}
