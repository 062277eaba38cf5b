//! That seats of a key lock may go to other threads, and locks may be shared.
//!
//! The function does nothing: what it promises is the law. The prover does not find it by itself for types so deep. Whoever
//! hands seats and locks to threads cites the rules of `proofs/Sending`.
#![tactic(auto)]

ghost use Rattle.std.specs.Thread.{IsSend, IsSync};
ghost use Rattle.mk_lock.specs.contracts.seat.Seat.{the_row as seat_row};
ghost use Rattle.mk_lock.specs.contracts.lock.KeyLock.{the_row as lock_row};

/// Seats and locks may go to other threads, and locks may be shared.
pub fn locks_cross()
    ensures seat { IsSend seat_row }
    ensures lock { IsSend lock_row }
    ensures shared { IsSync lock_row }
{}
