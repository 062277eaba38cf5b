//! A source, a sink and a word in memory, of which listed calls fail.
ghost use Rattle.std.specs.Prelude.{◌≡◌, ◌<◌, ◌≤◌, [], Some, ◌++◌, length, take, drop, is_ok, is_err, if◌then◌else◌, IfOk, OnOk, OnErr};
ghost use Rattle.std.specs.Io.KnownBytes.{ReadConsumes, WriteAppends};
ghost use Rattle.mk_io.specs.Faults.{HasRisen, one_more_told};
ghost use Rattle.mk_io.specs.Calls.{no_calls, is_next_listed};
ghost use Rattle.mk_io.specs.Memory.{next_read, after_read, after_failed_read, next_write, fails_write, after_write, after_failed_write, after_set, after_failed_set};

use crate::calls::CallCounter;
use crate::{EpochWord, Failed, Sink, Source};
use mk_txn::NoMemory;
use std::alloc::Global;
use std::marker::Model;

/// Bytes in memory, given a few at a time.
#[derive(Drop)]
pub struct MemSource {
    bytes: Vec<u8>,
    at: usize,
    piece: u32,
    calls: CallCounter,
}

impl Model for MemSource {
    ghost use Rattle.std.specs.Prelude.{◌<◌, ◌≤◌, length, drop};
    ghost use Rattle.mk_io.specs.Memory.{SourceState};

    ghost Value = { SourceState };

    ghost view = { λ s. record { left = drop s.at s.bytes.items; piece = s.piece; calls = s.calls } };

    ghost invariant = { λ s. (s.at ≤ length s.bytes.items) × (0 < s.piece) };
}

impl MemSource {
    /// A source of these bytes, at most `piece` a call. The calls whose numbers, from 1, stand in `failing` fail.
    pub fn new(
        alloc: Global,
        bytes: &[u8],
        piece: u32,
        failing: &[u32],
    ) -> Result<MemSource, NoMemory>
        requires { 0 < piece }
        ensures { IfOk result (λ s. s ≡ record { left = bytes.now; piece = piece; calls = no_calls failing.now }) }
    {
        Ok(MemSource {
            bytes: Vec::from_slice(alloc, bytes)?,
            at: 0,
            piece,
            calls: CallCounter::new(alloc, failing)?,
        })
    }
}

impl Source for MemSource {
    ghost faults = { λ s. s.calls.faults };

    ghost left = { λ s. Some s.left };

    fn read(&mut self, buf: &mut [u8]) -> Result<usize, Failed>
        ensures bound { IfOk result (λ n. n ≤ length buf.new) }
        ensures bytes { ReadConsumes (Some self.old.left) (Some self.new.left) result buf.new }
        ensures no_fault { OnOk result (self.new.calls.faults ≡ self.old.calls.faults) }
        ensures fault { OnErr result (HasRisen self.old.calls.faults self.new.calls.faults) }
        ensures never_falls { self.old.calls.faults ≤ self.new.calls.faults }

        // A listed call fails, and no other.
        ensures fails { is_err result ≡ is_next_listed self.old.calls }
        ensures count { IfOk result (λ n. n ≡ next_read self.old (length buf.old)) }
        ensures ok { IfOk result (λ n. self.new ≡ after_read self.old n) }
        ensures err { OnErr result (self.new ≡ after_failed_read self.old) }
        ensures buffer { IfOk result (λ n. buf.new ≡ take n self.old.left ++ drop n buf.old) }
    {
        if self.calls.count_call() {
            return Err(self.calls.fail());
        }
        let left = &self.bytes[self.at..];
        let count = (self.piece as usize).min(buf.len()).min(left.len());
        copy_front(left, count, buf);
        self.at += count;
        Ok(count)
    }
}

// Copies the first `count` bytes to the front of `to`.
pub(crate) fn copy_front(from: &[u8], count: usize, to: &mut [u8])
    requires from { count ≤ length from.now }
    requires to { count ≤ length to.old }
    ensures { to.new ≡ take count from.now ++ drop count to.old }
{
    to[..count].copy_from_slice(&from[..count]);
}

/// A writer into memory, a few bytes at a time.
#[derive(Drop)]
pub struct MemSink {
    bytes: Vec<u8>,
    piece: u32,
    calls: CallCounter,
}

impl Model for MemSink {
    ghost use Rattle.std.specs.Prelude.{◌<◌, ◌≤◌, vec_capacity, vec_len};
    ghost use Rattle.mk_io.specs.Memory.{SinkState, room};

    ghost Value = { SinkState };

    ghost view = { λ s. record { held = s.bytes.items; piece = s.piece; calls = s.calls } };

    ghost invariant = { λ s. (room ≤ vec_capacity s.bytes) × (vec_len s.bytes ≤ room) × (0 < s.piece) };
}

impl MemSink {
    /// How many bytes it has room for, from the start.
    pub const ROOM: usize = 4_194_304;

    /// An empty sink that takes at most `piece` bytes a call. The calls whose numbers, from 1, stand in `failing` fail.
    pub fn new(alloc: Global, piece: u32, failing: &[u32]) -> Result<MemSink, NoMemory>
        requires { 0 < piece }
        ensures { IfOk result (λ s. s ≡ record { held = []; piece = piece; calls = no_calls failing.now }) }
    {
        Ok(MemSink {
            bytes: Vec::with_capacity(alloc, MemSink::ROOM)?,
            piece,
            calls: CallCounter::new(alloc, failing)?,
        })
    }

    /// The bytes that were written.
    pub fn bytes(&self) -> &[u8]
        ensures { result.now ≡ self.now.held }
    {
        &self.bytes
    }
}

impl Sink for MemSink {
    ghost faults = { λ s. s.calls.faults };

    ghost held = { λ s. Some s.held };

    fn write(&mut self, bytes: &[u8]) -> Result<usize, Failed>
        ensures bound { IfOk result (λ n. n ≤ length bytes.now) }
        ensures some { IfOk result (λ n. 0 < length bytes.now → 0 < n) }
        ensures bytes { WriteAppends (Some self.old.held) (Some self.new.held) result bytes.now }
        ensures no_fault { OnOk result (self.new.calls.faults ≡ self.old.calls.faults) }
        ensures fault { OnErr result (HasRisen self.old.calls.faults self.new.calls.faults) }
        ensures never_falls { self.old.calls.faults ≤ self.new.calls.faults }

        // A listed call fails and one that finds no room, and no other.
        ensures fails { is_err result ≡ fails_write self.old bytes.now }
        ensures count { IfOk result (λ n. n ≡ next_write self.old bytes.now) }
        ensures ok { IfOk result (λ n. self.new ≡ after_write self.old (take n bytes.now)) }
        ensures err { OnErr result (self.new ≡ after_failed_write self.old) }
    {
        if self.calls.count_call() {
            return Err(self.calls.fail());
        }
        let free = MemSink::ROOM - self.bytes.len();
        let count = (self.piece as usize).min(bytes.len()).min(free);
        if count == 0 && !bytes.is_empty() {
            return Err(self.calls.fail());
        }
        self.bytes.extend_from_slice(&bytes[..count]).unwrap();
        Ok(count)
    }
}

/// A word in memory.
#[derive(Drop)]
pub struct MemWord {
    kept: u32,
    calls: CallCounter,
}

impl Model for MemWord {
    ghost use Rattle.mk_io.specs.Memory.{WordState};

    ghost Value = { WordState };

    ghost view = { λ w. record { kept = w.kept; calls = w.calls } };
}

impl MemWord {
    /// A word that keeps 0. The sets whose numbers, from 1, stand in `failing` fail.
    pub fn new(alloc: Global, failing: &[u32]) -> Result<MemWord, NoMemory>
        ensures { IfOk result (λ w. w ≡ record { kept = 0; calls = no_calls failing.now }) }
    {
        Ok(MemWord {
            kept: 0,
            calls: CallCounter::new(alloc, failing)?,
        })
    }
}

impl EpochWord for MemWord {
    ghost faults = { λ w. w.calls.faults };

    ghost kept = { λ w. w.kept };

    ghost sets = { λ w. Some w.calls.made };

    fn get(&self) -> u32 {
        self.kept
    }

    fn set(&mut self, value: u32) -> Result<(), Failed>
        ensures kept { self.new.kept ≡ (if is_ok result then value else self.old.kept) }
        ensures counted { Some self.new.calls.made ≡ one_more_told (Some self.old.calls.made) }
        ensures no_fault { OnOk result (self.new.calls.faults ≡ self.old.calls.faults) }
        ensures fault { OnErr result (HasRisen self.old.calls.faults self.new.calls.faults) }
        ensures never_falls { self.old.calls.faults ≤ self.new.calls.faults }

        // A listed call fails, and no other.
        ensures fails { is_err result ≡ is_next_listed self.old.calls }
        ensures ok { OnOk result (self.new ≡ after_set self.old value) }
        ensures err { OnErr result (self.new ≡ after_failed_set self.old) }
    {
        if self.calls.count_call() {
            return Err(self.calls.fail());
        }
        self.kept = value;
        Ok(())
    }
}
