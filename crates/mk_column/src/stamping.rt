//! An attempt gets its stamp and its writes.
ghost use Rattle.std.specs.Prelude.{◌≡◌, ◌≤◌, true, length, None, IfOk, OnOk, OnErr};
ghost use Rattle.mk_txn.specs.Transactions.{is_above_reads, are_distinct, write_keys};
ghost use Rattle.mk_words.specs.declared.Step.TheVariants.{Stamp as StampStep};
ghost use Rattle.mk_model.specs.Conditions.{blocked as blocked_by};
ghost use Rattle.mk_model.specs.Steps.{column_after};
ghost use Rattle.mk_column.specs.ClientsByCode.{client_stamped};

use crate::clients::Client;
use crate::column::Column;
use crate::{Reads, Writes};
use mk_txn::{NoMemory, Stamp, Txn, TxnError, TxnId, WriteItem};
use std::alloc::Global;

impl Column {
    // The transaction of the attempt is made, and its reading ends.
    pub(crate) fn stamp(&mut self, id: TxnId, clock: u64, writes: &Writes) -> Result<(), NoMemory>
        requires { blocked_by self.old.setting self.old.state (StampStep id clock writes.now) ≡ None }
        ensures ok { OnOk result (self.new ≡ record self.old { state = column_after self.old.setting self.old.state (StampStep id clock writes.now) }) }
        ensures err { OnErr result (self.new ≡ self.old) }
    {
        let alloc = *self.log.allocator();
        let begun = self.parts.attempts.find(id).unwrap();
        let before = *self.parts.clients.find(id.client).unwrap();
        let stamp = begun
            .next_stamp(before.number, before.last_time, clock)
            .unwrap();
        let txn = txn_of(alloc, id, stamp, &begun.shown().reads, writes.as_slice())?;
        self.parts.attempts.stamp(id, txn);
        self.parts.clients.put(after_stamp(&before, stamp.time));
        Ok(())
    }
}

// The transaction of these reads and writes, which fit, under a stamp above the reads.
fn txn_of(
    alloc: Global,
    id: TxnId,
    stamp: Stamp,
    reads: &Reads,
    writes: &[WriteItem],
) -> Result<Txn, NoMemory>
    requires above { is_above_reads stamp reads.now ≡ true }
    requires few { length writes.now ≤ 16 }
    requires distinct { are_distinct (write_keys writes.now) ≡ true }
    ensures { IfOk result (λ txn. txn ≡ record { id = id; stamp = stamp; reads = reads.now; writes = writes.now }) }
{
    match Txn::new(alloc, id, stamp, reads.items.as_slice(), writes) {
        Ok(txn) => Ok(txn),
        Err(TxnError::NoMemory) => Err(NoMemory),
        Err(TxnError::TooMany) => unreachable!(),
        Err(TxnError::Repeated(_)) => unreachable!(),
        Err(TxnError::NotAbove(_)) => unreachable!(),
    }
}

// The client once an attempt of it is stamped at this time.
fn after_stamp(client: &Client, time: u64) -> Client
    ensures { result ≡ client_stamped time client.now }
{
    Client {
        number: client.number,
        last_time: time,
        next_seq: client.next_seq,
        heard: client.heard,
        reading: false,
    }
}
