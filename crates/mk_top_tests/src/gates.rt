//! A gate holds each column inside a turn until the other has come: one thread, or one lock round all keys, never gets on.
use crate::calls::{NONE, passes_as};
use crate::rows::{two_workers, two_workers_report};
use mk_lock::Gate;
use std::hint::spin_loop;
use std::sync::atomic::AtomicU64;
use std::sync::atomic::Ordering::SeqCst;
use std::test::Fail;

// The looks before the gate gives up.
const TRIES: u64 = 1_000_000_000;

// Holds the early column in its first turn until the other has come once, and the other in its first turn until the early
// one has come twice, so has ended a turn.
#[derive(Drop)]
struct Meeting {
    early: u32,
    // how often column 0 came, and column 1
    first: AtomicU64,
    second: AtomicU64,
    gave_up: AtomicU64,
}

impl Meeting {
    fn new(early: u32) -> Meeting {
        Meeting {
            early,
            first: AtomicU64::new(0),
            second: AtomicU64::new(0),
            gave_up: AtomicU64::new(0),
        }
    }

    fn give_up(&self) {
        self.gave_up.store(1, SeqCst);
    }

    fn wait_for(&self, count: &AtomicU64, wanted: u64) {
        for _ in 0..TRIES {
            if count.load(SeqCst) >= wanted {
                return;
            }
            spin_loop();
        }
        self.give_up();
    }

    // The column is in a turn.
    fn meet(&self, column: u32, own: &AtomicU64, other: &AtomicU64) {
        if own.fetch_add(1, SeqCst) == 0 {
            let wanted = if column == self.early { 1 } else { 2 };
            self.wait_for(other, wanted);
        }
    }

    // Both came more than once, and neither waited in vain.
    fn has_met(&self) -> bool {
        self.gave_up.load(SeqCst) == 0
            && self.first.load(SeqCst) > 1
            && self.second.load(SeqCst) > 1
    }
}

impl Gate for Meeting {
    // Column 0 comes to key 0 alone, and column 1 to key 1.
    fn pass(&self, column: u32, _replica: u32, key: u32) {
        match (column, key) {
            (0, 0) => self.meet(column, &self.first, &self.second),
            (1, 1) => self.meet(column, &self.second, &self.first),
            _ => self.give_up(),
        }
    }
}

#[test]
fn each_column_is_held_in_a_turn_until_the_other_comes(rt: HostRuntime) -> Result<(), Fail> {
    for early in [1, 0] {
        let meeting = Meeting::new(early);
        let is_told = passes_as(
            &rt,
            rt.alloc(),
            "run",
            two_workers(),
            NONE,
            &meeting,
            0,
            two_workers_report(),
        )?;
        assert!(rt; is_told && meeting.has_met());
    }
    Ok(())
}
