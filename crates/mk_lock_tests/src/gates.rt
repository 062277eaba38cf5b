ghost use Rattle.std.specs.Prelude.{◌≡◌};

use crate::acts::act_often;
use mk_cell::Cell;
use mk_lock::{Gate, KeyLock, Seat};
use std::hint::spin_loop;
use std::sync::Wait;
use std::sync::atomic::AtomicU64;
use std::sync::atomic::Ordering::SeqCst;
use std::test::Fail;
use std::thread::{Threads, join};

// Two seats act so often, each in a thread of its own.
fn both_act<G: Gate + Sync, R: Threads + Wait + Sync>(
    rt: &R,
    locks: (&KeyLock, &KeyLock),
    mut first: Seat,
    mut second: Seat,
    counts: (u32, u32),
    gate: &G,
)
    requires { (first.lock ≡ locks.0.now.name) × (second.lock ≡ locks.1.now.name) }
{
    let (one, other) = locks;
    let (few, many) = counts;
    join(
        rt,
        move ||
            requires { first.lock ≡ one.now.name }
        { act_often(rt, one, &mut first, few, gate) },
        move ||
            requires { second.lock ≡ other.now.name }
        { act_often(rt, other, &mut second, many, gate) },
    );
}

// The tries before the gate gives up.
const TRIES: u64 = 1_000_000_000;

// Holds column 1 in its first turn until column 0 is in one, and that one until column 1 has come twice.
#[derive(Drop)]
struct Meeting {
    first: AtomicU64,
    second: AtomicU64,
    gave_up: AtomicU64,
}

impl Meeting {
    fn wait_for(&self, count: &AtomicU64, wanted: u64) {
        for _ in 0..TRIES {
            if count.load(SeqCst) >= wanted {
                return;
            }
            spin_loop();
        }
        self.gave_up.store(1, SeqCst);
    }
}

impl Gate for Meeting {
    fn pass(&self, column: u32, _replica: u32, _key: u32) {
        if column == 0 {
            self.first.fetch_add(1, SeqCst);
            self.wait_for(&self.second, 2);
        } else {
            self.second.fetch_add(1, SeqCst);
            self.wait_for(&self.first, 1);
        }
    }
}

// Column 0 has one turn on the one key, and column 1 has two on the other.
#[test]
fn two_threads_are_in_turns_of_two_keys_at_once(rt: HostRuntime) -> Result<(), Fail> {
    let (one, mut seats) = KeyLock::new(rt.alloc(), 0, 0, Cell::new(rt.alloc()), 2)?;
    let (other, mut others) = KeyLock::new(rt.alloc(), 0, 1, Cell::new(rt.alloc()), 2)?;
    let meeting = Meeting {
        first: AtomicU64::new(0),
        second: AtomicU64::new(0),
        gave_up: AtomicU64::new(0),
    };
    let (first, second) = (seats.remove(0), others.remove(1));
    both_act(&rt, (&one, &other), first, second, (1, 2), &meeting);
    let came = (
        meeting.first.load(SeqCst),
        meeting.second.load(SeqCst),
        meeting.gave_up.load(SeqCst),
    );
    assert!(rt; came == (1, 2, 0));
    Ok(())
}

// How long each turn lasts, in looks: so long that the other seat sleeps.
const LOOKS: u32 = 10_000;

// Counts who is inside, and notes where somebody else is, or where the key is not key 5 of replica 2.
#[derive(Drop)]
struct Alone {
    inside: AtomicU64,
    came: AtomicU64,
    faults: AtomicU64,
}

impl Gate for Alone {
    fn pass(&self, _column: u32, replica: u32, key: u32) {
        let others = self.inside.fetch_add(1, SeqCst);
        if others != 0 || replica != 2 || key != 5 {
            self.faults.fetch_add(1, SeqCst);
        }
        for _ in 0..LOOKS {
            spin_loop();
        }
        self.came.fetch_add(1, SeqCst);
        self.inside.fetch_sub(1, SeqCst);
    }
}

#[test]
fn the_gate_stands_inside_of_each_turn(rt: HostRuntime) -> Result<(), Fail> {
    let (lock, mut seats) = KeyLock::new(rt.alloc(), 2, 5, Cell::new(rt.alloc()), 2)?;
    let alone = Alone {
        inside: AtomicU64::new(0),
        came: AtomicU64::new(0),
        faults: AtomicU64::new(0),
    };
    let (second, first) = (seats.remove(1), seats.remove(0));
    both_act(&rt, (&lock, &lock), first, second, (1_000, 1_000), &alone);
    assert!(rt; (alone.came.load(SeqCst), alone.faults.load(SeqCst)) == (2_000, 0));
    Ok(())
}
