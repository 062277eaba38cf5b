//! What replicas hand in: entries of two attempts of one client.
ghost use Rattle.std.specs.Prelude.{◌≡◌, ◌<◌, true, [], ◌∷◌, IfOk};
ghost use Rattle.mk_quorum.specs.Sizes.{members};
ghost use Rattle.mk_words.specs.Bases.{BaseState};
ghost use Rattle.mk_words.specs.Promises.{EntryFits};
ghost use Rattle.mk_lists.specs.Among.{Each};
ghost use Rattle.mk_model.specs.EpochState.{EpochState};
ghost use Rattle.mk_epoch.specs.Standing.{StandsFor};
ghost use Rattle.mk_epoch_tests.specs.Reached.{first as is_first, second as is_second, committed as is_committed, MayBeHanded, FitsReplica};

use mk_epoch::Replicas;
use mk_merge::Keeping;
use mk_txn::{Known, Outcome, Stamp, Txn, TxnError, TxnId, Value, Vote, WriteItem};
use mk_words::Entry;
use std::alloc::Global;
use std::test::Fail;

// The client's first attempt writes key 0 at 10.0.
fn first(alloc: Global) -> Result<Txn, TxnError>
    ensures { IfOk result (λ txn. txn ≡ is_first) }
{
    let writes = [WriteItem {
        key: 0,
        value: Value::Number(5),
    }];
    Txn::new(
        alloc,
        TxnId { client: 0, seq: 1 },
        Stamp {
            time: 10,
            client: 0,
        },
        &[],
        &writes,
    )
}

// Its second writes key 1 at 20.0.
fn second(alloc: Global) -> Result<Txn, TxnError>
    ensures { IfOk result (λ txn. txn ≡ is_second) }
{
    let writes = [WriteItem {
        key: 1,
        value: Value::Number(6),
    }];
    Txn::new(
        alloc,
        TxnId { client: 0, seq: 2 },
        Stamp {
            time: 20,
            client: 0,
        },
        &[],
        &writes,
    )
}

// An entry with an Ok vote and the final outcome commit.
fn committed(txn: Txn) -> Entry
    ensures { result ≡ is_committed txn }
{
    Entry {
        txn,
        view: 0,
        vote: Some(Vote::Ok),
        accepted: None,
        last: Some(Outcome::Commit),
    }
}

// The first attempt, committed.
pub(crate) fn one_commit(alloc: Global) -> Result<Vec<Entry>, Fail>
    ensures { IfOk result (λ entries. entries.items ≡ is_committed is_first ∷ []) }
{
    let mut entries = Vec::new(alloc);
    entries.push(committed(first(alloc)?))?;
    Ok(entries)
}

// Both attempts, committed.
pub(crate) fn two_commits(alloc: Global) -> Result<Vec<Entry>, Fail>
    ensures { IfOk result (λ entries. entries.items ≡ is_committed is_first ∷ (is_committed is_second ∷ [])) }
{
    let mut entries = Vec::new(alloc);
    entries.push(committed(first(alloc)?))?;
    entries.push(committed(second(alloc)?))?;
    Ok(entries)
}

// Whether the entry's attempt is not forgotten by the base and fits it.
fn is_fit<B: Keeping>(base: &B, entry: &Entry) -> bool
    ensures { result ≡ true → (state : BaseState) → B.stands base.now state → EntryFits state entry.now }
{
    match base.fates().fate(entry.txn.id()) {
        Known::Forgotten => false,
        Known::Absent => base.fits(&entry.txn),
        Known::Outcome(_) => base.fits(&entry.txn),
    }
}

fn are_fit<B: Keeping>(base: &B, entries: &[Entry]) -> bool
    ensures { result ≡ true → (state : BaseState) → B.stands base.now state → Each (EntryFits state) entries.now }
{
    for entry in entries {
        if !is_fit(base, entry) {
            return false;
        }
    }
    true
}

// These entries of a replica that never adopted an epoch, and none of one that did.
pub(crate) fn handed_by<'a, B: Keeping>(
    replicas: &Replicas<B>,
    replica: u32,
    entries: &'a [Entry],
) -> Result<&'a [Entry], Fail>
    requires there { replica < members replicas.now.faults }
    requires may { MayBeHanded entries.now }
    ensures may { IfOk result (λ handed. MayBeHanded handed.now) }
    ensures fit { IfOk result (λ handed. (state : EpochState) → StandsFor B.stands replicas.now state → FitsReplica state replica handed.now) }
{
    if replicas.adopted(replica) > 0 {
        return Ok(&[]);
    }
    if !are_fit(replicas.base(replica), entries) {
        return Err("an entry that does not fit".into());
    }
    Ok(entries)
}
