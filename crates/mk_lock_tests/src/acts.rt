// Acts of one seat.
ghost use Rattle.std.specs.Prelude.{◌≡◌};

use mk_lock::{Gate, KeyLock, Seat};
use mk_txn::{Stamp, Value};
use mk_words::Act;
use std::sync::Wait;

pub(crate) fn stamp(time: u64, client: u32) -> Stamp {
    Stamp { time, client }
}

// All kinds of acts, one after another.
fn act_of(number: u32, turn: u32) -> Act {
    let ts = stamp(u64::from(turn / 7) + 1, number);
    match turn % 7 {
        0 => Act::Get,
        1 => Act::CheckRead {
            ts,
            version: stamp(u64::from(turn / 7), number),
        },
        2 => Act::CheckWrite { ts },
        3 => Act::CommitRead { ts },
        4 => Act::CommitWrite {
            ts,
            value: Value::Number(u64::from(turn)),
        },
        5 => Act::ReleaseRead { ts },
        _ => Act::ReleaseWrite { ts },
    }
}

// So many acts of one seat, or fewer where memory ends.
pub(crate) fn act_often<G: Gate, R: Wait>(
    rt: &R,
    lock: &KeyLock,
    seat: &mut Seat,
    count: u32,
    gate: &G,
)
    requires { seat.old.lock ≡ lock.now.name }
    ensures { (seat.new.lock ≡ seat.old.lock) × (seat.new.number ≡ seat.old.number) }
{
    for turn in 0..count {
        let act = act_of(seat.number(), turn);
        if lock.act(rt, seat, act, gate).is_err() {
            return;
        }
    }
}
