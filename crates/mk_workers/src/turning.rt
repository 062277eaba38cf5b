//! One turn of a column.
ghost use Rattle.std.specs.Prelude.{◌≡◌, ◌<◌, ◌++◌, ◌∷◌, [], true, OnOk, IfOk};
ghost use Rattle.mk_words.specs.Acts.{answer_fits};
ghost use Rattle.mk_words.specs.declared.Answer.{Answer as OneAnswer};
ghost use Rattle.mk_words.specs.declared.Step.TheVariants.{Key as KeyStep};
ghost use Rattle.mk_column.specs.ColumnByCode.{ColumnView};
ghost use Rattle.mk_column.specs.Growing.{HasGrown};
ghost use Rattle.mk_driver_laws.specs.Enabled.{HasComeAfterStep, RoundEndsIdle, WantedIsThere};
ghost use Rattle.mk_workers.specs.Going.{HasDone, IsOfScript};
ghost use Rattle.mk_workers.specs.Seating.{locks_of, AreLocksOf, HasSeats};
ghost use Rattle.mk_workers.specs.Turns.{HasTurned, IsAtWork};

use crate::worker::{Shared, Worker};
use mk_column::{Column, ColumnError, Outlet, grows_through};
use mk_driver::{Next, stands_after_step};
use mk_driver_laws::{has_come_goes_on, named_key_is_enabled};
use mk_lock::{Gate, KeyLock, Seat};
use mk_txn::NoMemory;
use mk_words::{KeyCall, Step};
use std::sync::Wait;

// A step that was named and is enabled is a step more.
fn has_come_after_step()
    ensures { HasComeAfterStep }
{
    has_come_goes_on();
}

// A call that a column wants is at one of the replicas and keys.
fn wanted_is_there()
    ensures { WantedIsThere }
{
    named_key_is_enabled();
}

// No key call is under way where nothing more is named.
fn round_ends_idle()
    ensures { RoundEndsIdle }
{
    named_key_is_enabled();
}

// A column has grown from itself.
fn grows_from_itself()
    ensures { (column : ColumnView) → HasGrown column column }
{
    grows_through();
}

// A step is refused for want of memory. A Stamp whose time there is not ends the worker in the same way.
fn out_of_memory(_: ColumnError) -> NoMemory {
    NoMemory
}

// The step is done.
fn take_step(column: &mut Column, step: Step) -> Result<(), NoMemory>
    ensures done { OnOk result (HasDone step column.old column.new) }
    ensures grown { OnOk result (HasGrown column.old column.new) }
{
    match column.step(step) {
        Ok(()) => Ok(()),
        Err(error) => Err(out_of_memory(error)),
    }
}

// The call waits for its turn at its lock, and the column gets the answer.
fn key_step<G: Gate, R: Wait>(
    rt: &R,
    shared: &Shared<G>,
    column: &mut Column,
    seats: &mut [Seat],
    call: KeyCall,
) -> Result<(), NoMemory>
    requires locks { AreLocksOf shared.now.replicas shared.now.keys (locks_of shared.now.locks.now) }
    requires there { (call.replica < shared.now.replicas) × (call.key < shared.now.keys) }
    requires seats { HasSeats (locks_of shared.now.locks.now) column.old.number column.old.log seats.old }
    ensures done { OnOk result ((answer : OneAnswer) × HasDone (KeyStep call answer) column.old column.new) }
    ensures grown { OnOk result (HasGrown column.old column.new) }
    ensures seats { OnOk result (HasSeats (locks_of shared.now.locks.now) column.new.number column.new.log seats.new) }
{
    let place = call.replica as usize * shared.keys + call.key as usize;
    let lock: &KeyLock = &shared.locks[place];
    let answer = lock.act(rt, &mut seats[place], call.act, shared.gate)?;
    take_step(column, Step::Key { call, answer })
}

// What the driver names is done. False where nothing more is named.
fn go_on<G: Gate, O: Outlet + Drop, R: Wait>(
    rt: &R,
    shared: &Shared<G>,
    worker: &mut Worker<O>,
) -> Result<bool, NoMemory>
    requires locks { AreLocksOf shared.now.replicas shared.now.keys (locks_of shared.now.locks.now) }
    requires script { IsOfScript shared.now.rules.now shared.now.replicas shared.now.keys worker.old.driver worker.old.column }
    requires seats { HasSeats (locks_of shared.now.locks.now) worker.old.column.number worker.old.column.log worker.old.seats.items }
    ensures turned { IfOk result (λ goes_on. HasTurned shared.now.rules.now goes_on worker.old.driver worker.new.driver worker.old.column worker.new.column) }
    ensures script { OnOk result (IsOfScript shared.now.rules.now shared.now.replicas shared.now.keys worker.new.driver worker.new.column) }
    ensures seats { OnOk result (HasSeats (locks_of shared.now.locks.now) worker.new.column.number worker.new.column.log worker.new.seats.items) }
    ensures grown { OnOk result (HasGrown worker.old.column worker.new.column) }
    ensures outlet { OnOk result (worker.new.outlet ≡ worker.old.outlet) }
{
    let next = worker
        .driver
        .next(&worker.column, shared.rules, shared.procs)?;
    match next {
        Next::Step(step) => {
            take_step(&mut worker.column, step)?;
            has_come_after_step();
            stands_after_step();
            Ok(true)
        }
        Next::Key(call) => {
            wanted_is_there();
            key_step(rt, shared, &mut worker.column, &mut worker.seats, call)?;
            has_come_after_step();
            stands_after_step();
            Ok(true)
        }
        Next::Over => {
            round_ends_idle();
            grows_from_itself();
            Ok(false)
        }
    }
}

/// One turn: what the driver names is done, and the outlet is told. False where nothing more is named.
pub(crate) fn turn<G: Gate, O: Outlet + Drop, R: Wait>(
    rt: &R,
    shared: &Shared<G>,
    worker: &mut Worker<O>,
) -> Result<bool, NoMemory>
    requires locks { AreLocksOf shared.now.replicas shared.now.keys (locks_of shared.now.locks.now) }
    requires fits { IsAtWork O.suits shared.now.rules.now shared.now.replicas shared.now.keys (locks_of shared.now.locks.now) worker.old }
    ensures fits { OnOk result (IsAtWork O.suits shared.now.rules.now shared.now.replicas shared.now.keys (locks_of shared.now.locks.now) worker.new) }
    ensures turned { IfOk result (λ goes_on. HasTurned shared.now.rules.now goes_on worker.old.driver worker.new.driver worker.old.column worker.new.column) }
    ensures kept { OnOk result (O.kept worker.old.outlet worker.new.outlet) }
{
    if !go_on(rt, shared, worker)? {
        return Ok(false);
    }
    worker.outlet.tell(rt, &worker.column)?;
    Ok(true)
}
