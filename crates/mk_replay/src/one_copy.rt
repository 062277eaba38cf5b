//! The one copy.
ghost use Rattle.std.specs.Prelude.{◌≡◌, IfOk};
ghost use Rattle.mk_model.specs.OneCopy.{HaveDistinctStamps, one_copy};

use crate::order::by_stamp;
use mk_txn::{NoMemory, Stamp, Txn, Value, WriteItem};
use std::alloc::Global;
use std::collections::BTreeMap;
use std::marker::Model;

/// What each key that was written holds: its version, which is its writer's stamp, and its value.
#[derive(Drop)]
pub struct OneCopy {
    versions: BTreeMap<u32, (Stamp, Value)>,
}

impl Model for OneCopy {
    ghost use Rattle.mk_model.specs.OneCopy.{Copy};

    ghost Value = { Copy };

    ghost view = { λ copy. copy.versions.entries };
}

impl OneCopy {
    ghost use Rattle.std.specs.Prelude.{◌≡◌, [], OnOk};
    ghost use Rattle.mk_model.specs.OneCopy.{version_in, with_writes};

    // No key was written yet.
    pub(crate) fn new(alloc: Global) -> OneCopy
        ensures { result ≡ [] }
    {
        OneCopy {
            versions: BTreeMap::new(alloc),
        }
    }

    /// The version and value of the key, and 0.0 and the number 0 where it was never written.
    pub fn get(&self, key: u32) -> (Stamp, Value)
        ensures version { result.0 ≡ (version_in self.now key).version }
        ensures value { result.1 ≡ (version_in self.now key).value }
    {
        match self.versions.get(&key) {
            Some(held) => *held,
            None => (Stamp { time: 0, client: 0 }, Value::Number(0)),
        }
    }

    // The copy after these writes. Want of memory leaves some of them out.
    pub(crate) fn write(&mut self, stamp: Stamp, writes: &[WriteItem]) -> Result<(), NoMemory>
        ensures { OnOk result (self.new ≡ with_writes stamp writes.now self.old) }
    {
        for item in writes {
            self.versions.insert(item.key, (stamp, item.value))?;
        }
        Ok(())
    }
}

/// The copy that the commits leave, in order of stamp.
pub fn replay(alloc: Global, commits: &[Txn]) -> Result<OneCopy, NoMemory>
    requires { HaveDistinctStamps commits.now }
    ensures { IfOk result (λ copy. copy ≡ one_copy commits.now) }
{
    let order = by_stamp(alloc, commits)?;
    let mut copy = OneCopy::new(alloc);
    for (_, txn) in &order {
        copy.write(txn.stamp(), txn.writes())?;
    }
    Ok(copy)
}
