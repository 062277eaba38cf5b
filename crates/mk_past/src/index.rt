//! An index of commits: the stamps of all, and the versions of each key.
ghost use Rattle.std.specs.Prelude.{◌≡◌, ◌≤◌, ◌<◌, ◌==◌, ◌∷◌, ◌++◌, ℕ, [], List, filter, length, map, take, OnOk, if◌then◌else◌};
ghost use Rattle.std.specs.List.Sorted.{IsPartitionedBy};
ghost use Rattle.mk_txn.specs.LatestWrites.{first_version};
ghost use Rattle.mk_past.specs.Pasts.{is_upto};
ghost use Rattle.mk_past.specs.Indexes.{versions_at, versions_by, last_version};

use mk_txn::{NoMemory, Stamp, Value, WriteItem, precedes};
use std::alloc::Global;
use std::marker::Model;

// What every key holds at first.
const FIRST: (Stamp, Value) = (Stamp { time: 0, client: 0 }, Value::Number(0));

// Up to where the stamps are at or below this one.
fn stamps_upto(stamps: &[Stamp], stamp: Stamp) -> usize
    ensures bound { result ≤ length stamps.now }
    ensures part { IsPartitionedBy (is_upto stamp) stamps.now → take result stamps.now ≡ filter (is_upto stamp) stamps.now }
{
    stamps.partition_point(|other| !precedes(stamp, *other))
}

// Up to where the versions are at or below this stamp.
fn versions_upto(versions: &[(Stamp, Value)], stamp: Stamp) -> usize
    ensures bound { result ≤ length versions.now }
    ensures part { IsPartitionedBy (λ version. is_upto stamp version.0) versions.now → take result versions.now ≡ filter (λ version. is_upto stamp version.0) versions.now }
{
    versions.partition_point(|version| !precedes(stamp, version.0))
}

// The last version at or below the stamp.
fn latest(versions: &[(Stamp, Value)], stamp: Stamp) -> (Stamp, Value)
    ensures version { IsPartitionedBy (λ version. is_upto stamp version.0) versions.now → result.0 ≡ (last_version first_version (filter (λ version. is_upto stamp version.0) versions.now)).version }
    ensures value { IsPartitionedBy (λ version. is_upto stamp version.0) versions.now → result.1 ≡ (last_version first_version (filter (λ version. is_upto stamp version.0) versions.now)).value }
{
    let end = versions_upto(versions, stamp);
    if end > 0 { versions[end - 1] } else { FIRST }
}

// Empty lists behind the others, so that this key has one.
fn grow(versions: &mut Vec<Vec<(Stamp, Value)>>, key: u32) -> Result<(), NoMemory>
    ensures there { OnOk result (key < length versions.new.items) }
    ensures same { OnOk result ((other : ℕ) → versions_at (map (λ key. key.items) versions.new.items) other ≡ versions_at (map (λ key. key.items) versions.old.items) other) }
{
    let alloc = *versions.allocator();
    'each: for _ in versions.len()..key as usize + 1 {
        versions.push(Vec::new(alloc))?;
    }
    Ok(())
}

// One more version of a key, behind its others.
fn push_version(
    versions: &mut Vec<Vec<(Stamp, Value)>>,
    key: u32,
    version: (Stamp, Value),
) -> Result<(), NoMemory>
    ensures { OnOk result ((other : ℕ) → versions_at (map (λ key. key.items) versions.new.items) other ≡
        (if key == other then versions_at (map (λ key. key.items) versions.old.items) other ++ version ∷ [] else versions_at (map (λ key. key.items) versions.old.items) other)) }
{
    grow(versions, key)?;
    versions[key as usize].push(version)?;
    Ok(())
}

// The versions that writes of one stamp make, behind the others.
fn push_writes(
    versions: &mut Vec<Vec<(Stamp, Value)>>,
    stamp: Stamp,
    writes: &[WriteItem],
) -> Result<(), NoMemory>
    ensures { OnOk result ((other : ℕ) → versions_at (map (λ key. key.items) versions.new.items) other ≡
        versions_at (map (λ key. key.items) versions.old.items) other ++ versions_by other stamp writes.now) }
{
    'each: for item in writes {
        push_version(versions, item.key, (stamp, item.value))?;
    }
    Ok(())
}

/// What the store held at every stamp: the stamps of a run's commits, and the versions of each key.
#[derive(Drop)]
pub struct Past {
    // in order
    stamps: Vec<Stamp>,
    // those of each key, by its number, in order of stamp
    versions: Vec<Vec<(Stamp, Value)>>,
}

impl Model for Past {
    ghost use Rattle.std.specs.Prelude.{map};
    ghost use Rattle.mk_past.specs.Indexes.{PastView};

    ghost Value = { PastView };

    ghost view = { λ past. record { stamps = past.stamps.items; versions = map (λ key. key.items) past.versions.items } };
}

impl Past {
    ghost use Rattle.std.specs.Prelude.{◌≡◌, ◌∷◌, ◌++◌, [], List, OnOk};
    ghost use Rattle.mk_txn.specs.Transactions.{Transaction};
    ghost use Rattle.mk_model.specs.OneCopy.{version_in};
    ghost use Rattle.mk_past.specs.Pasts.{copy_at, count_at};
    ghost use Rattle.mk_past.specs.Indexes.{IsIndexOf, IsPastOf, versions_at};

    // The index of no commits.
    pub(crate) fn empty(alloc: Global) -> Past
        ensures { IsIndexOf result [] }
    {
        Past {
            stamps: Vec::new(alloc),
            versions: Vec::new(alloc),
        }
    }

    // One more commit, behind the others. Want of memory leaves a part of it out.
    pub(crate) fn push(&mut self, stamp: Stamp, writes: &[WriteItem]) -> Result<(), NoMemory>
        ensures { OnOk result ((txns : List Transaction) (txn : Transaction) → txn.stamp ≡ stamp → txn.writes ≡ writes.now → IsIndexOf self.old txns → IsIndexOf self.new (txns ++ txn ∷ [])) }
    {
        self.stamps.push(stamp)?;
        push_writes(&mut self.versions, stamp, writes)?;
        Ok(())
    }

    // The versions of a key, in order of stamp.
    fn versions_of(&self, key: u32) -> &[(Stamp, Value)]
        ensures { result.now ≡ versions_at self.now.versions key }
    {
        match self.versions.get(key as usize) {
            Some(versions) => versions.as_slice(),
            None => &[],
        }
    }

    /// The version and value of the key that the commits at or below the stamp leave, and 0.0 and the number 0 where none of
    /// them wrote it.
    pub fn at(&self, key: u32, stamp: Stamp) -> (Stamp, Value)
        ensures version { (commits : List Transaction) → IsPastOf self.now commits → result.0 ≡ (version_in (copy_at stamp commits) key).version }
        ensures value { (commits : List Transaction) → IsPastOf self.now commits → result.1 ≡ (version_in (copy_at stamp commits) key).value }
    {
        latest(self.versions_of(key), stamp)
    }

    /// How many commits there are at or below the stamp.
    pub fn count(&self, stamp: Stamp) -> u64
        ensures { (commits : List Transaction) → IsPastOf self.now commits → result ≡ count_at stamp commits }
    {
        stamps_upto(self.stamps.as_slice(), stamp) as u64
    }
}
