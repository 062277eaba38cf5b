//! What commits leave at keys.
ghost use Rattle.std.specs.Prelude.{◌≡◌, ℕ, ◌==◌, if◌then◌else◌, IfOk, OnOk};
ghost use Rattle.mk_txn.specs.LatestWrites.{after_writes};
ghost use Rattle.mk_words.specs.Bases.{commits_in};
ghost use Rattle.mk_merge_laws.specs.Lefts.{LeftState, with_write, with_read, after_reads, after_commit};
ghost use Rattle.mk_snap.specs.Snapshots.{left_at, AreAdded};

use mk_merge::Left;
use mk_txn::{NoMemory, Outcome, Stamp, Txn, Value};
use mk_words::Fated;
use std::collections::BTreeMap;

// What is left at the key.
pub(crate) fn left(lefts: &BTreeMap<u32, Left>, key: u32) -> Left
    ensures { result ≡ left_at key lefts.now.entries }
{
    match lefts.get(&key) {
        Some(left) => *left,
        None => Left::nothing(),
    }
}

fn set(lefts: &mut BTreeMap<u32, Left>, key: u32, left: Left) -> Result<(), NoMemory>
    ensures { OnOk result ((other : ℕ) → left_at other lefts.new.entries ≡ (if other == key then left else left_at other lefts.old.entries)) }
{
    lefts.insert(key, left)?;
    Ok(())
}

// One more write of the key.
fn write(
    lefts: &mut BTreeMap<u32, Left>,
    stamp: Stamp,
    key: u32,
    value: Value,
) -> Result<(), NoMemory>
    ensures { OnOk result ((other : ℕ) → left_at other lefts.new.entries ≡ (if other == key then with_write stamp value (left_at other lefts.old.entries) else left_at other lefts.old.entries)) }
{
    let mut one = left(lefts, key);
    one.write(stamp, value);
    set(lefts, key, one)
}

// One more read of the key.
fn read(lefts: &mut BTreeMap<u32, Left>, stamp: Stamp, key: u32) -> Result<(), NoMemory>
    ensures { OnOk result ((other : ℕ) → left_at other lefts.new.entries ≡ (if other == key then with_read stamp (left_at other lefts.old.entries) else left_at other lefts.old.entries)) }
{
    let mut one = left(lefts, key);
    one.read(stamp);
    set(lefts, key, one)
}

// The writes of one more commit.
fn add_writes(lefts: &mut BTreeMap<u32, Left>, txn: &Txn) -> Result<(), NoMemory>
    ensures { OnOk result ((key : ℕ) → left_at key lefts.new.entries ≡ record { latest = after_writes key txn.now.stamp (left_at key lefts.old.entries).latest txn.now.writes; rts = (left_at key lefts.old.entries).rts }) }
{
    for item in txn.writes() {
        write(lefts, txn.stamp(), item.key, item.value)?;
    }
    Ok(())
}

// The reads of one more commit.
fn add_reads(lefts: &mut BTreeMap<u32, Left>, txn: &Txn) -> Result<(), NoMemory>
    ensures { OnOk result ((key : ℕ) → left_at key lefts.new.entries ≡ record { latest = (left_at key lefts.old.entries).latest; rts = after_reads key txn.now.stamp (left_at key lefts.old.entries).rts txn.now.reads }) }
{
    for item in txn.reads() {
        read(lefts, txn.stamp(), item.key)?;
    }
    Ok(())
}

// One more commit.
fn add(lefts: &mut BTreeMap<u32, Left>, txn: &Txn) -> Result<(), NoMemory>
    ensures { OnOk result ((key : ℕ) → left_at key lefts.new.entries ≡ after_commit key txn.now (left_at key lefts.old.entries)) }
{
    add_writes(lefts, txn)?;
    add_reads(lefts, txn)
}

// The commits of the list besides.
pub(crate) fn add_commits(lefts: &mut BTreeMap<u32, Left>, list: &[Fated]) -> Result<(), NoMemory>
    ensures { OnOk result (AreAdded (commits_in list.now) lefts.old.entries lefts.new.entries) }
{
    for fated in list {
        if fated.outcome == Outcome::Commit {
            add(lefts, &fated.txn)?;
        }
    }
    Ok(())
}
