//! Runs of attempts of one client without a gap.
ghost use Rattle.std.specs.Prelude.{◌≡◌, ◌<◌, ◌≤◌, ◌+◌, ◌^◌, ◌&&◌, ◌==◌, false, not};
ghost use Rattle.mk_trim.specs.SettledAttempts.{holds};
ghost use Rattle.mk_trim.specs.Runs.{has_number, follows, AllFollow};
ghost use Rattle.mk_txn.specs.declared.TxnId.{TxnId as Attempt};

use mk_txn::TxnId;
use std::collections::BTreeSet;

// The last of the attempts that follow this one without a gap.
pub(crate) fn run_end(ids: &BTreeSet<TxnId>, id: TxnId) -> u32
    ensures from { id.seq ≤ result }
    ensures run { AllFollow ids.now.keys id result }
    ensures ends { result + 1 < 2 ^ 32 → has_number ids.now.keys id.client (result + 1) ≡ false }
{
    let mut end = id.seq;
    while end < u32::MAX && has(ids, id.client, end + 1) {
        end += 1;
    }
    end
}

fn has(ids: &BTreeSet<TxnId>, client: u32, seq: u32) -> bool
    ensures { result ≡ has_number ids.now.keys client seq }
{
    ids.contains(&TxnId { client, seq })
}

// Takes out the attempts that follow this one, up to `end`.
pub(crate) fn drop_run(ids: &mut BTreeSet<TxnId>, id: TxnId, end: u32)
    requires { id.seq ≤ end }
    ensures { (other : Attempt) → holds ids.new.keys other ≡ (holds ids.old.keys other && not (follows id end other)) }
{
    let mut seq = id.seq;
    while seq < end {
        seq += 1;
        remove(ids, id.client, seq);
    }
}

fn remove(ids: &mut BTreeSet<TxnId>, client: u32, seq: u32)
    ensures { (other : Attempt) → holds ids.new.keys other ≡ (holds ids.old.keys other && not (other.client == client && other.seq == seq)) }
{
    ids.remove(&TxnId { client, seq });
}
