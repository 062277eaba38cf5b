//! Marks of clients.
ghost use Rattle.std.specs.Prelude.{◌≡◌, [], OnOk, OnErr, IfOk};

use crate::{NoMemory, TxnId};
use std::alloc::Global;
use std::collections::BTreeMap;
use std::marker::Model;

/// For each client the number up to which its attempts are known to need no more telling, and 0 for all others.
#[derive(Drop)]
pub struct Marks {
    seqs: BTreeMap<u32, u32>,
}

impl Model for Marks {
    ghost use Rattle.mk_txn.specs.MarkMaps.{MarkMap, IsMarkMap};

    ghost Value = { MarkMap };

    ghost view = { λ marks. marks.seqs.entries };

    ghost invariant = { λ marks. IsMarkMap marks.seqs.entries };
}

impl Marks {
    ghost use Rattle.mk_txn.specs.MarkMaps.{mark_of, raised, joined_marks, covers as is_covered, IsMarkMap};

    /// No marks.
    pub fn new(alloc: Global) -> Marks
        ensures { result ≡ [] }
    {
        Marks {
            seqs: BTreeMap::new(alloc),
        }
    }

    /// The client's mark, 0 where it has none.
    pub fn get(&self, client: u32) -> u32
        ensures value { result ≡ mark_of self.now client }
        ensures fits { IsMarkMap self.now }
    {
        self.seqs.get(&client).copied().unwrap_or(0)
    }

    /// The client's mark is then at least `seq`.
    pub fn raise(&mut self, client: u32, seq: u32) -> Result<(), NoMemory>
        ensures ok { OnOk result (self.new ≡ raised client seq self.old) }
        ensures err { OnErr result (self.new ≡ self.old) }
    {
        if self.get(client) < seq {
            self.seqs.insert(client, seq)?;
        }
        Ok(())
    }

    /// Each client's mark is then at least what it is in `more`.
    pub fn join(&mut self, more: &Marks) -> Result<(), NoMemory>
        ensures ok { OnOk result (self.new ≡ joined_marks self.old more.now) }
        ensures err { OnErr result (self.new ≡ self.old) }
    {
        let mut all = self.copy()?;
        for (client, seq) in &more.seqs {
            all.raise(*client, *seq)?;
        }
        *self = all;
        Ok(())
    }

    /// Leaves no marks.
    pub fn clear(&mut self)
        ensures { self.new ≡ [] }
    {
        self.seqs.clear();
    }

    /// Whether the attempt is up to its client's mark.
    pub fn covers(&self, id: TxnId) -> bool
        ensures { result ≡ is_covered self.now id }
    {
        id.seq <= self.get(id.client)
    }

    pub fn copy(&self) -> Result<Marks, NoMemory>
        ensures value { IfOk result (λ marks. marks ≡ self.now) }
        ensures fits { IfOk result IsMarkMap }
    {
        Ok(Marks {
            seqs: self.seqs.clone()?,
        })
    }
}
