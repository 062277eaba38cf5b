//! Whether what was read is what the commits left.
ghost use Rattle.std.specs.Prelude.{◌≡◌, ◌↔◌, IfOk, IsNone};
ghost use Rattle.mk_model.specs.OneCopy.{HaveDistinctStamps};
ghost use Rattle.mk_model.specs.Explained.{IsExplained};
ghost use Rattle.mk_replay.specs.Explained.{unexplained_read};

use crate::one_copy::OneCopy;
use crate::order::by_stamp;
use crate::reads::{Unexplained, find_unlike};
use mk_txn::{NoMemory, Txn};
use std::alloc::Global;

/// The first read, in order of stamp and then of mention, whose version or value is not what the commits below its
/// stamp leave, and None where there is none.
pub fn unexplained(alloc: Global, commits: &[Txn]) -> Result<Option<Unexplained>, NoMemory>
    requires { HaveDistinctStamps commits.now }
    ensures first { IfOk result (λ first. first ≡ unexplained_read commits.now) }
    ensures none_where_explained { IfOk result (λ first. IsNone first ↔ IsExplained commits.now) }
{
    let order = by_stamp(alloc, commits)?;
    let mut copy = OneCopy::new(alloc);
    for (_, txn) in &order {
        if let Some(key) = find_unlike(&copy, txn.reads()) {
            return Ok(Some(Unexplained { id: txn.id(), key }));
        }
        copy.write(txn.stamp(), txn.writes())?;
    }
    Ok(None)
}
