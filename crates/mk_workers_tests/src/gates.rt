//! A gate holds each column inside a turn until the other has come: one thread, or one lock round all keys, never gets on.
use crate::start::{NONE_FULL, TWO_WORKERS, run, script_of, went_well};
use mk_lock::Gate;
use std::hint::spin_loop;
use std::sync::atomic::AtomicU64;
use std::sync::atomic::Ordering::SeqCst;
use std::test::Fail;

// The looks before the gate gives up.
const TRIES: u64 = 1_000_000_000;

/// Counts the turns of columns 0 and 1. Each is held in its first turn until the other has come so often.
#[derive(Drop)]
pub(crate) struct Meeting {
    wanted: (u64, u64),
    first: AtomicU64,
    second: AtomicU64,
    gave_up: AtomicU64,
}

impl Meeting {
    /// How often the other has to come: for column 0, and for column 1.
    pub(crate) fn new(wanted: (u64, u64)) -> Meeting {
        Meeting {
            wanted,
            first: AtomicU64::new(0),
            second: AtomicU64::new(0),
            gave_up: AtomicU64::new(0),
        }
    }

    /// How many turns column 0 had, and column 1.
    pub(crate) fn turns(&self) -> (u64, u64) {
        (self.first.load(SeqCst), self.second.load(SeqCst))
    }

    // The column is in a turn.
    fn meet(&self, own: &AtomicU64, other: &AtomicU64, wanted: u64) {
        if own.fetch_add(1, SeqCst) > 0 {
            return;
        }
        for _ in 0..TRIES {
            if other.load(SeqCst) >= wanted {
                return;
            }
            spin_loop();
        }
        self.gave_up.store(1, SeqCst);
    }
}

impl Gate for Meeting {
    // Column 0 comes to key 0 alone, and column 1 to key 1.
    fn pass(&self, column: u32, _replica: u32, key: u32) {
        if column == 0 && key == 0 {
            self.meet(&self.first, &self.second, self.wanted.0);
        } else if column == 1 && key == 1 {
            self.meet(&self.second, &self.first, self.wanted.1);
        } else {
            self.gave_up.store(1, SeqCst);
        }
    }
}

// The one is held until the other is in a turn, and the other until the one has come twice, so has ended a turn.
#[test]
fn each_column_is_held_in_a_turn_until_the_other_comes(rt: HostRuntime) -> Result<(), Fail> {
    let script = script_of(rt.alloc(), TWO_WORKERS)?;
    for wanted in [(2, 1), (1, 2)] {
        let meeting = Meeting::new(wanted);
        let worked = run(&rt, rt.alloc(), &script, 2, NONE_FULL, &meeting)?;
        assert!(rt; went_well(&worked, 2));
        assert!(rt; meeting.gave_up.load(SeqCst) == 0);
        assert!(rt; meeting.turns().0 > 1 && meeting.turns().1 > 1);
    }
    Ok(())
}
