//! The end of a transaction at a replica, one act at a time.
ghost use Rattle.std.specs.Prelude.{◌≡◌, IfOk};
ghost use Rattle.mk_words.specs.Checks.{finish_acts};
ghost use Rattle.mk_words.specs.Validations.{first_of, rest_of};

use crate::acts::finish_of;
use mk_txn::{NoMemory, Outcome, Txn};
use mk_words::{Act, Answer};
use std::alloc::Global;
use std::marker::Model;

/// The acts that commit or give up a transaction at a replica's keys.
#[derive(Drop)]
pub struct Finishing {
    acts: Vec<(u32, Act)>,
    done: usize,
}

impl Model for Finishing {
    ghost use Rattle.std.specs.Prelude.{List, drop};
    ghost use Rattle.mk_words.specs.Checks.{KeyAct};

    ghost Value = { List KeyAct };

    ghost view = { λ finishing. drop finishing.done finishing.acts.items };
}

impl Finishing {
    /// `voted_ok` says whether the vote here was Ok. An abort gives up only what such a vote holds.
    pub fn start(
        alloc: Global,
        txn: &Txn,
        outcome: Outcome,
        voted_ok: bool,
    ) -> Result<Finishing, NoMemory>
        ensures { IfOk result (λ finishing. finishing ≡ finish_acts txn.now outcome voted_ok) }
    {
        let acts = finish_of(alloc, txn, outcome, voted_ok)?;
        Ok(Finishing { acts, done: 0 })
    }

    /// The act that is to be done next, with its key, and None once nothing is left.
    pub fn next_act(&self) -> Option<(u32, Act)>
        ensures { result ≡ first_of self.now }
    {
        self.acts.get(self.done).copied()
    }

    /// Takes the answer to the next act, which says no more than that it was done.
    pub fn take(&mut self, _answer: Answer)
        ensures { self.new ≡ rest_of self.old }
    {
        if self.done < self.acts.len() {
            self.done += 1;
        }
    }
}
