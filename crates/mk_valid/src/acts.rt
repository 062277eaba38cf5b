//! The acts of a transaction, in order: those at the keys that it read, and then those at the keys that it writes.
ghost use Rattle.std.specs.Prelude.{◌≡◌, ◌++◌, map, OnOk, IfOk};
ghost use Rattle.mk_words.specs.Checks.{finish_acts, release_of};
ghost use Rattle.mk_valid.specs.Kinds.{read_act_of, write_act_of, acts_of_kind};

use mk_txn::{NoMemory, Outcome, ReadItem, Stamp, Txn, WriteItem};
use mk_words::Act;
use std::alloc::Global;

/// What is done at each key of a transaction.
#[derive(Clone, Copy)]
pub(crate) enum Kind {
    Check,
    Commit,
    Release,
}

fn read_act(kind: Kind, ts: Stamp, item: ReadItem) -> Act
    ensures { result ≡ read_act_of kind ts item }
{
    match kind {
        Kind::Check => Act::CheckRead {
            ts,
            version: item.version,
        },
        Kind::Commit => Act::CommitRead { ts },
        Kind::Release => Act::ReleaseRead { ts },
    }
}

fn write_act(kind: Kind, ts: Stamp, item: WriteItem) -> Act
    ensures { result ≡ write_act_of kind ts item }
{
    match kind {
        Kind::Check => Act::CheckWrite { ts },
        Kind::Commit => Act::CommitWrite {
            ts,
            value: item.value,
        },
        Kind::Release => Act::ReleaseWrite { ts },
    }
}

fn push_reads(
    acts: &mut Vec<(u32, Act)>,
    kind: Kind,
    ts: Stamp,
    reads: &[ReadItem],
) -> Result<(), NoMemory>
    ensures { OnOk result (acts.new.items ≡ acts.old.items ++ map (λ item. (item.key, read_act_of kind ts item)) reads.now) }
{
    for item in reads {
        acts.push((item.key, read_act(kind, ts, *item)))?;
    }
    Ok(())
}

fn push_writes(
    acts: &mut Vec<(u32, Act)>,
    kind: Kind,
    ts: Stamp,
    writes: &[WriteItem],
) -> Result<(), NoMemory>
    ensures { OnOk result (acts.new.items ≡ acts.old.items ++ map (λ item. (item.key, write_act_of kind ts item)) writes.now) }
{
    for item in writes {
        acts.push((item.key, write_act(kind, ts, *item)))?;
    }
    Ok(())
}

pub(crate) fn acts_of(alloc: Global, kind: Kind, txn: &Txn) -> Result<Vec<(u32, Act)>, NoMemory>
    ensures { IfOk result (λ acts. acts.items ≡ acts_of_kind kind txn.now) }
{
    let mut acts = Vec::new(alloc);
    push_reads(&mut acts, kind, txn.stamp(), txn.reads())?;
    push_writes(&mut acts, kind, txn.stamp(), txn.writes())?;
    Ok(acts)
}

/// The acts that finish a transaction where `voted_ok` says whether the vote here was Ok.
pub(crate) fn finish_of(
    alloc: Global,
    txn: &Txn,
    outcome: Outcome,
    voted_ok: bool,
) -> Result<Vec<(u32, Act)>, NoMemory>
    ensures { IfOk result (λ acts. acts.items ≡ finish_acts txn.now outcome voted_ok) }
{
    match outcome {
        Outcome::Commit => acts_of(alloc, Kind::Commit, txn),
        Outcome::Abort(_) => {
            if voted_ok {
                acts_of(alloc, Kind::Release, txn)
            } else {
                Ok(Vec::new(alloc))
            }
        }
    }
}

/// What gives the check up again.
pub(crate) fn release(check: (u32, Act)) -> (u32, Act)
    ensures { result ≡ release_of check }
{
    match check.1 {
        Act::CheckRead { ts, .. } => (check.0, Act::ReleaseRead { ts }),
        Act::CheckWrite { ts } => (check.0, Act::ReleaseWrite { ts }),
        _ => check,
    }
}
