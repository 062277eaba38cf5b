//! One worker, and all of them at once.
ghost use Rattle.std.specs.Prelude.{◌≡◌, ◌<◌, ℕ, All, OnOk, length, slice_index_or};
ghost use Rattle.mk_workers.specs.Seating.{locks_of, AreLocksOf};
ghost use Rattle.mk_workers.specs.Turns.{IsAtWork, HasWorked, HasRun};

use crate::turning::turn;
use crossbeam_utils::CachePadded;
use mk_column::{Column, Outlet};
use mk_driver::Driver;
use mk_faults::Rules;
use mk_lock::{Gate, KeyLock, Seat};
use mk_lock_laws::locks_cross;
use mk_proc::Procs;
use mk_txn::NoMemory;
use std::sync::Wait;
use std::thread;
use std::thread::Threads;

/// What all workers share: the locks, by replica and key, the rules, the procedures and the gate.
#[derive(Clone, Copy)]
pub(crate) struct Shared<'a, G: Gate> {
    pub locks: &'a [CachePadded<KeyLock>],
    pub replicas: usize,
    pub keys: usize,
    pub rules: &'a Rules,
    pub procs: &'a Procs,
    pub gate: &'a G,
}

/// What one thread has to itself: a column with its driver, its seats in the order of the locks, and its outlet.
#[derive(Drop)]
pub(crate) struct Worker<O: Outlet + Drop> {
    pub column: Column,
    pub driver: Driver,
    pub seats: Vec<Seat>,
    pub outlet: O,
    pub ended: Result<(), NoMemory>,
}

// All turns of one column, and the end of its round.
fn run<G: Gate, O: Outlet + Drop, R: Wait>(
    rt: &R,
    shared: &Shared<G>,
    worker: &mut Worker<O>,
) -> Result<(), NoMemory>
    requires locks { AreLocksOf shared.now.replicas shared.now.keys (locks_of shared.now.locks.now) }
    requires fits { IsAtWork O.suits shared.now.rules.now shared.now.replicas shared.now.keys (locks_of shared.now.locks.now) worker.old }
    ensures { OnOk result (HasWorked O.suits O.kept shared.now.rules.now (locks_of shared.now.locks.now) worker.old worker.new) }
{
    for _ in rt.forever() {
        if !turn(rt, shared, worker)? {
            return worker.outlet.round_end(rt, &worker.column);
        }
    }
    unreachable!()
}

/// Each worker runs in a thread of its own, and all are joined. One that finds no memory says so; the others go on.
pub(crate) fn run_all<G: Gate + Sync, O: Outlet + Drop + Send, R: Threads + Wait + Sync>(
    rt: &R,
    shared: &Shared<G>,
    workers: &mut [Worker<O>],
)
    requires locks { AreLocksOf shared.now.replicas shared.now.keys (locks_of shared.now.locks.now) }
    requires fits { All (λ w. IsAtWork O.suits shared.now.rules.now shared.now.replicas shared.now.keys (locks_of shared.now.locks.now) w) workers.old }
    ensures long { length workers.new ≡ length workers.old }
    ensures worked { (i : ℕ) (d : _) → i < length workers.old →
        HasRun O.suits O.kept shared.now.rules.now (locks_of shared.now.locks.now) (slice_index_or workers.old i d) (slice_index_or workers.new i d) }
{
    if workers.is_empty() {
        return;
    }
    locks_cross();
    let threads = workers.len();
    thread::for_each_mut(
        rt,
        workers,
        threads,
        &move |_: usize, worker: &mut Worker<O>|
            requires locks { AreLocksOf shared.now.replicas shared.now.keys (locks_of shared.now.locks.now) }
            requires fits { IsAtWork O.suits shared.now.rules.now shared.now.replicas shared.now.keys (locks_of shared.now.locks.now) worker.now }
            ensures { HasRun O.suits O.kept shared.entry.now.rules.now (locks_of shared.entry.now.locks.now) worker.entry.now worker.exit.now }
        {
            worker.ended = run(rt, shared, worker);
        },
    );
}
