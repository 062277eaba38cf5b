//! Transactions: what an attempt read and is to write, under its stamp.
ghost use Rattle.std.specs.Prelude.{◌≡◌, ◌⊎◌, IfOk, IfErr, IfSome, ℕ, List};

use crate::faults::{TxnError, find_fault};
use crate::{NoMemory, ReadItem, Stamp, TxnId, WriteItem};
use std::alloc::Global;
use std::marker::Model;

/// An attempt's number, stamp, reads and writes. It never changes.
#[derive(Drop)]
pub struct Txn {
    id: TxnId,
    stamp: Stamp,
    reads: Vec<ReadItem>,
    writes: Vec<WriteItem>,
}

impl Model for Txn {
    ghost use Rattle.mk_txn.specs.Transactions.{Transaction, IsTransaction};

    ghost Value = { Transaction };

    ghost view = { λ txn. record { id = txn.id; stamp = txn.stamp; reads = txn.reads.items; writes = txn.writes.items } };

    ghost invariant = { λ txn. IsTransaction (record { id = txn.id; stamp = txn.stamp; reads = txn.reads.items; writes = txn.writes.items }) };
}

impl Txn {
    ghost use Rattle.mk_txn.specs.Transactions.{IsTransaction};
    ghost use Rattle.mk_txn.specs.TxnFaults.{txn_fault};

    /// Faults are looked for in this order: too many items, a repeated key among the reads and then among the
    /// writes, and a read whose version is not below the stamp. Of several such keys the first in the list is named.
    pub fn new(
        alloc: Global,
        id: TxnId,
        stamp: Stamp,
        reads: &[ReadItem],
        writes: &[WriteItem],
    ) -> Result<Txn, TxnError>
        ensures value { IfOk result (λ txn. txn ≡ record { id = id; stamp = stamp; reads = reads.now; writes = writes.now }) }
        ensures fits { IfOk result IsTransaction }
        ensures refused { IfSome (txn_fault stamp reads.now writes.now) (λ fault. result ≡ Err fault) }
        ensures err { IfErr result (λ error. (error ≡ TxnError.NoMemory) ⊎ (txn_fault stamp reads.now writes.now ≡ Some error)) }
    {
        if let Some(fault) = find_fault(stamp, reads, writes) {
            return Err(fault);
        }
        let reads = Vec::from_slice(alloc, reads)?;
        let writes = Vec::from_slice(alloc, writes)?;
        Ok(Txn {
            id,
            stamp,
            reads,
            writes,
        })
    }

    pub fn id(&self) -> TxnId
        ensures { result ≡ self.now.id }
    {
        self.id
    }

    pub fn stamp(&self) -> Stamp
        ensures { result ≡ self.now.stamp }
    {
        self.stamp
    }

    pub fn reads(&self) -> &[ReadItem]
        ensures value { result.now ≡ self.now.reads }
        ensures fits { IsTransaction self.now }
    {
        self.reads.as_slice()
    }

    pub fn writes(&self) -> &[WriteItem]
        ensures value { result.now ≡ self.now.writes }
        ensures fits { IsTransaction self.now }
    {
        self.writes.as_slice()
    }

    pub fn copy(&self) -> Result<Txn, NoMemory>
        ensures value { IfOk result (λ txn. txn ≡ self.now) }
        ensures fits { IfOk result IsTransaction }
    {
        let reads = self.reads.clone()?;
        let writes = self.writes.clone()?;
        Ok(Txn {
            id: self.id,
            stamp: self.stamp,
            reads,
            writes,
        })
    }
}
