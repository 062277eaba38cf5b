//! Attempts that need no more telling.
ghost use Rattle.std.specs.Prelude.{◌≡◌, ◌==◌, OnOk, OnErr};
ghost use Rattle.mk_txn.specs.declared.TxnId.{TxnId as Attempt};

use crate::runs::{drop_run, run_end};
use mk_txn::{Marks, NoMemory, TxnId};
use std::alloc::Global;
use std::collections::BTreeSet;
use std::marker::Model;

/// Attempts that are settled, in any order, and for each client the number up to which all are. Attempts are
/// numbered from 1, so the number 0 counts as settled.
#[derive(Drop)]
pub struct Settled {
    marks: Marks,
    above: BTreeSet<TxnId>,
}

impl Model for Settled {
    ghost use Rattle.mk_trim.specs.SettledAttempts.{SettledAttempts, IsSettled};

    ghost Value = { SettledAttempts };

    ghost view = { λ settled. record { marks = settled.marks; above = settled.above.keys } };

    ghost invariant = { λ settled. IsSettled (record { marks = settled.marks; above = settled.above.keys }) };
}

impl Settled {
    ghost use Rattle.mk_trim.specs.SettledAttempts.{is_settled, IsMark, AlsoSettles};

    /// No attempt is settled.
    pub fn new(alloc: Global) -> Settled
        ensures { (id : Attempt) → is_settled result id ≡ (id.seq == 0) }
    {
        Settled {
            marks: Marks::new(alloc),
            above: BTreeSet::new(alloc),
        }
    }

    /// The attempt is settled from then on.
    pub fn settle(&mut self, id: TxnId) -> Result<(), NoMemory>
        ensures ok { OnOk result (AlsoSettles self.old self.new id) }
        ensures err { OnErr result (self.new ≡ self.old) }
    {
        let mark = self.marks.get(id.client);
        if id.seq <= mark {
            return Ok(());
        }
        if id.seq > mark + 1 {
            self.above.insert(id)?;
            return Ok(());
        }
        let end = run_end(&self.above, id);
        self.marks.raise(id.client, end)?;
        drop_run(&mut self.above, id, end);
        Ok(())
    }

    /// The greatest number up to which all attempts of the client are settled.
    pub fn mark(&self, client: u32) -> u32
        ensures { IsMark self.now client result }
    {
        self.marks.get(client)
    }
}
