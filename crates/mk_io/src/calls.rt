//! A counter of calls, some of which are to fail.
ghost use Rattle.std.specs.Prelude.{◌≡◌, ◌≤◌, IfOk};
ghost use Rattle.mk_io.specs.Calls.{no_calls, is_next_listed, with_call, with_fault};

use crate::Failed;
use mk_txn::NoMemory;
use std::alloc::Global;
use std::marker::Model;

/// How many calls were made and how many of them failed, and the numbers, from 1, of the calls that are to fail.
#[derive(Drop)]
pub struct CallCounter {
    failing: Vec<u32>,
    made: u64,
    faults: u64,
}

impl Model for CallCounter {
    ghost use Rattle.mk_io.specs.Calls.{Calls};

    ghost Value = { Calls };

    ghost view = { λ c. record { failing = c.failing.items; made = c.made; faults = c.faults } };
}

impl CallCounter {
    pub fn new(alloc: Global, failing: &[u32]) -> Result<CallCounter, NoMemory>
        ensures { IfOk result (λ c. c ≡ no_calls failing.now) }
    {
        Ok(CallCounter {
            failing: Vec::from_slice(alloc, failing)?,
            made: 0,
            faults: 0,
        })
    }

    /// Counts one call, and tells whether it is listed.
    pub fn count_call(&mut self) -> bool
        ensures listed { result ≡ is_next_listed self.old }
        ensures counted { self.new ≡ with_call self.old }
    {
        let number = self.made.saturating_add(1);
        self.made = number;
        self.failing
            .iter()
            .any(|listed| u64::from(*listed) == number)
    }

    /// Counts the fault of the call that was counted last.
    pub fn fail(&mut self) -> Failed
        ensures counted { self.new ≡ with_fault self.old }
        ensures never_falls { self.old.faults ≤ self.new.faults }
    {
        self.faults = self.faults.saturating_add(1);
        Failed
    }
}
