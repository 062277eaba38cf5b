//! What lies outside the store: sources of bytes, sinks of bytes, and the words that outlive a replica's memory.
//!
//! A call on the outside may fail. Each object counts its faults, and a call answers [`Failed`] only where that count
//! rose, so that code over these traits can't give up of itself.
#![tactic(auto)]

ghost use Rattle.std.specs.Prelude.{◌≡◌, ℕ, ◌<◌, ◌≤◌, List, Option, None, length, is_ok, if◌then◌else◌, IfOk, OnOk, OnErr};
ghost use Rattle.std.specs.Io.KnownBytes.{ReadConsumes, WriteAppends};
ghost use Rattle.mk_io.specs.Faults.{HasRisen, one_more_told};

mod adapters;
mod calls;
mod memory;
mod sure;
mod whole;

pub use adapters::{StdSink, StdSource};
pub use memory::{MemSink, MemSource, MemWord};
pub use sure::{SureSink, SureSource, SureWord};
pub use whole::{ReadError, read_whole, write_whole};

/// A call on the outside failed, and took nothing.
#[derive(Clone, Copy, PartialEq, Eq)]
pub struct Failed;

/// What bytes are read from.
pub trait Source {
    /// How many faults there were so far. The count stands still at 2^64 - 1.
    ghost faults: { Self → ℕ };

    /// The bytes that are left, where they are known.
    ghost left: { Self → Option (List ℕ) } = { λ _. None };

    /// Moves the next bytes into the front of `buf`, and gives their number: 0 where `buf` is empty or the input is at
    /// its end. A failed call takes nothing.
    fn read(&mut self, buf: &mut [u8]) -> Result<usize, Failed>
        ensures bound { IfOk result (λ n. n ≤ length buf.new) }
        ensures bytes { ReadConsumes (left self.old) (left self.new) result buf.new }
        ensures no_fault { OnOk result (faults self.new ≡ faults self.old) }
        ensures fault { OnErr result (HasRisen (faults self.old) (faults self.new)) }
        ensures never_falls { faults self.old ≤ faults self.new };
}

/// What bytes are written to.
pub trait Sink {
    /// How many faults there were so far. The count stands still at 2^64 - 1.
    ghost faults: { Self → ℕ };

    /// The bytes that it holds, where they are known.
    ghost held: { Self → Option (List ℕ) } = { λ _. None };

    /// Takes bytes from the front of `bytes`, at least one where there is one, and gives their number. A failed call
    /// takes nothing.
    fn write(&mut self, bytes: &[u8]) -> Result<usize, Failed>
        ensures bound { IfOk result (λ n. n ≤ length bytes.now) }
        ensures some { IfOk result (λ n. 0 < length bytes.now → 0 < n) }
        ensures bytes { WriteAppends (held self.old) (held self.new) result bytes.now }
        ensures no_fault { OnOk result (faults self.new ≡ faults self.old) }
        ensures fault { OnErr result (HasRisen (faults self.old) (faults self.new)) }
        ensures never_falls { faults self.old ≤ faults self.new };
}

/// A replica's durable register: its number outlives a loss of the replica's memory.
pub trait EpochWord {
    /// How many faults there were so far. The count stands still at 2^64 - 1.
    ghost faults: { Self → ℕ };

    /// The number that it keeps.
    ghost kept: { Self → ℕ };

    /// How many calls of `set` there were so far, where that is known. The count stands still at 2^64 - 1.
    ghost sets: { Self → Option ℕ } = { λ _. None };

    /// The number that it keeps.
    fn get(&self) -> u32
        ensures { result ≡ kept self.now };

    /// Keeps this number from now on. A failed call leaves the number as it was, and counts as a call too.
    fn set(&mut self, value: u32) -> Result<(), Failed>
        ensures kept { kept self.new ≡ (if is_ok result then value else kept self.old) }
        ensures counted { sets self.new ≡ one_more_told (sets self.old) }
        ensures no_fault { OnOk result (faults self.new ≡ faults self.old) }
        ensures fault { OnErr result (HasRisen (faults self.old) (faults self.new)) }
        ensures never_falls { faults self.old ≤ faults self.new };
}
