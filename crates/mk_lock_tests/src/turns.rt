ghost use Rattle.std.specs.Prelude.{◌≡◌, ℕ, ◌<◌, ◌≤◌, All, length, slice_index_or};
ghost use Rattle.mk_lock.specs.Seats.{AreSeatsOf};

use crate::acts::{act_often, stamp};
use mk_cell::Cell;
use mk_lock::{KeyLock, NoGate, Seat};
use mk_txn::{NoMemory, Reason};
use mk_words::{Act, Answer, JournalEntry};
use std::alloc::Global;
use std::sync::Wait;
use std::test::Fail;
use std::thread;
use std::thread::Threads;

#[test]
fn two_seats_take_turns(rt: HostRuntime) -> Result<(), Fail> {
    let (lock, mut seats) = KeyLock::new(rt.alloc(), 0, 0, Cell::new(rt.alloc()), 2)?;
    let write = Act::CheckWrite { ts: stamp(10, 1) };
    let read = Act::CheckRead {
        ts: stamp(11, 2),
        version: stamp(0, 0),
    };
    let refused = Answer::Refused {
        reason: Reason::ReadPending,
        stamp: stamp(10, 1),
    };
    let first = lock.act(&rt, &mut seats[0], write, &NoGate)?;
    let second = lock.act(&rt, &mut seats[1], read, &NoGate)?;
    assert!(rt; (first, second) == (Answer::Okay, refused));
    let (mut cell, journal) = lock.close(seats);
    let entries = [
        JournalEntry {
            seat: 0,
            act: write,
            answer: Answer::Okay,
        },
        JournalEntry {
            seat: 1,
            act: read,
            answer: refused,
        },
    ];
    assert!(rt; journal.as_slice() == entries.as_slice());
    // The one pending writer is 10.1.
    let release = Act::ReleaseWrite { ts: stamp(10, 1) };
    for (act, answer) in [
        (read, refused),
        (release, Answer::Done),
        (read, Answer::Okay),
    ] {
        cell.reserve()?;
        assert!(rt; cell.act(act) == answer);
    }
    Ok(())
}

// So many acts of each seat, in a thread of its own.
fn act_in_threads<R: Threads + Wait + Sync>(rt: &R, lock: &KeyLock, seats: &mut [Seat], count: u32)
    requires { All (λ s. s.lock ≡ lock.now.name) seats.old }
    ensures { (i : ℕ) (d : _) → i < length seats.old → ((slice_index_or seats.new i d).lock ≡ (slice_index_or seats.old i d).lock) × ((slice_index_or seats.new i d).number ≡ (slice_index_or seats.old i d).number) }
{
    if seats.is_empty() {
        return;
    }
    let threads = seats.len();
    thread::for_each_mut(
        rt,
        seats,
        threads,
        &move |_: usize, seat: &mut Seat|
            requires { seat.now.lock ≡ lock.now.name }
            ensures { (seat.exit.now.lock ≡ seat.entry.now.lock) × (seat.exit.now.number ≡ seat.entry.now.number) }
        { act_often(rt, lock, seat, count, &NoGate) },
    );
}

// The lock of a key with all its seats.
#[derive(Drop)]
struct Crowd {
    lock: KeyLock,
    seats: Vec<Seat>,
    ghost all: { AreSeatsOf lock.name lock.seats seats.items },
}

impl Crowd {
    fn new(alloc: Global, key: u32, seats: u32) -> Result<Crowd, NoMemory>
        requires { 1 ≤ seats }
    {
        let (lock, seats) = KeyLock::new(alloc, 0, key, Cell::new(alloc), seats)?;
        Ok(Crowd { lock, seats })
    }

    fn act_often<R: Threads + Wait + Sync>(&mut self, rt: &R, count: u32) {
        act_in_threads(rt, &self.lock, &mut self.seats, count);
    }

    // How many entries there are, where each seat has so many, and each answer is what a cell gives.
    fn entries(self, alloc: Global, each: usize) -> Result<usize, NoMemory> {
        let seats = self.seats.len();
        let (_, journal) = self.lock.close(self.seats);
        let mut cell = Cell::new(alloc);
        for entry in journal.iter() {
            cell.reserve()?;
            if cell.act(entry.act) != entry.answer {
                return Ok(0);
            }
        }
        for number in 0..seats {
            let own = journal
                .iter()
                .filter(|entry| entry.seat as usize == number)
                .count();
            if own != each {
                return Ok(0);
            }
        }
        Ok(journal.len())
    }
}

#[test]
fn two_threads_leave_all_their_entries(rt: HostRuntime) -> Result<(), Fail> {
    let mut crowd = Crowd::new(rt.alloc(), 0, 2)?;
    crowd.act_often(&rt, 1_000);
    assert!(rt; crowd.entries(rt.alloc(), 1_000)? == 2_000);
    Ok(())
}

fn act_everywhere<R: Threads + Wait + Sync>(rt: &R, crowds: &mut [Crowd]) {
    thread::for_each_mut(
        rt,
        crowds,
        4,
        &move |_: usize, crowd: &mut Crowd| { crowd.act_often(rt, 70) },
    );
}

#[test]
fn eight_seats_act_on_four_keys(rt: HostRuntime) -> Result<(), Fail> {
    let mut crowds = Vec::new(rt.alloc());
    for key in 0..4 {
        crowds.push(Crowd::new(rt.alloc(), key, 8)?)?;
    }
    act_everywhere(&rt, &mut crowds);
    for crowd in crowds {
        assert!(rt; crowd.entries(rt.alloc(), 70)? == 560);
    }
    Ok(())
}
