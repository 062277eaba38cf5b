//! A source, a sink and a word of which no call fails.
ghost use Rattle.std.specs.Prelude.{◌≡◌, ℕ, ◌≤◌, Some, Ok, ◌++◌, length, take, drop, min, IsOk, IfOk, OnOk, OnErr};
ghost use Rattle.std.specs.Io.KnownBytes.{ReadConsumes};
ghost use Rattle.mk_io.specs.Faults.{HasRisen};

use crate::memory::copy_front;
use crate::{EpochWord, Failed, Sink, Source};
use std::marker::Model;

/// A source of these bytes, of which no call fails.
#[derive(Drop)]
pub struct SureSource<'a> {
    left: &'a [u8],
}

impl<'a> Model for SureSource<'a> {
    ghost use Rattle.std.specs.Prelude.{ℕ, List};

    ghost Value = { List ℕ };

    ghost view = { λ s. s.left.now };
}

impl<'a> SureSource<'a> {
    /// A source of these bytes.
    pub fn new(bytes: &'a [u8]) -> SureSource<'a>
        ensures { result ≡ bytes.now }
    {
        SureSource { left: bytes }
    }
}

impl Source for SureSource<'_> {
    ghost faults = { λ _. 0 };

    ghost left = { λ s. Some s };

    fn read(&mut self, buf: &mut [u8]) -> Result<usize, Failed>
        ensures bound { IfOk result (λ n. n ≤ length buf.new) }
        ensures bytes { ReadConsumes (Some self.old) (Some self.new) result buf.new }
        ensures no_fault { OnOk result (◌≡◌ {A = ℕ} 0 0) }
        ensures fault { OnErr result (HasRisen 0 0) }
        ensures never_falls { 0 ≤ 0 }
        ensures count { result ≡ Ok (min (length buf.old) (length self.old)) }
        ensures rest { IfOk result (λ n. self.new ≡ drop n self.old) }
        ensures buffer { IfOk result (λ n. buf.new ≡ take n self.old ++ drop n buf.old) }
    {
        let left = self.left;
        let count = buf.len().min(left.len());
        copy_front(left, count, buf);
        self.left = &left[count..];
        Ok(count)
    }
}

/// A sink that takes each piece whole and keeps no byte, so it tells none.
#[derive(Clone, Copy, PartialEq, Eq)]
pub struct SureSink;

impl SureSink {
    /// A sink that takes all.
    pub fn new() -> SureSink {
        SureSink
    }
}

impl Sink for SureSink {
    ghost faults = { λ _. 0 };

    fn write(&mut self, bytes: &[u8]) -> Result<usize, Failed>
        ensures { result ≡ Ok (length bytes.now) }
    {
        Ok(bytes.len())
    }
}

/// A word of which no set fails.
#[derive(Drop)]
pub struct SureWord {
    kept: u32,
}

impl Model for SureWord {
    ghost use Rattle.std.specs.Prelude.{ℕ};

    ghost Value = { ℕ };

    ghost view = { λ w. w.kept };
}

impl SureWord {
    /// A word that keeps 0.
    pub fn new() -> SureWord
        ensures { result ≡ 0 }
    {
        SureWord { kept: 0 }
    }
}

impl EpochWord for SureWord {
    ghost faults = { λ _. 0 };

    ghost kept = { λ w. w };

    fn get(&self) -> u32 {
        self.kept
    }

    fn set(&mut self, value: u32) -> Result<(), Failed>
        ensures ok { IsOk result }
        ensures after { self.new ≡ value }
    {
        self.kept = value;
        Ok(())
    }
}
