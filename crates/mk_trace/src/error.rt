//! Why a line, and why a trace, was not read.
ghost use Rattle.std.specs.Prelude.{◌≡◌};
ghost use Rattle.mk_trace.specs.declared.error.LineError.TheVariants.{Memory, Fault};

use mk_text::TextFault;
use mk_txn::NoMemory;
use std::alloc::{AllocError, AllocFailed};
use thiserror::Error;

/// Why a line was not taken.
#[derive(Drop)]
pub enum LineError {
    Memory,
    Fault(TextFault),
}

impl From<TextFault> for LineError {
    ghost from_gives = { λ f e. e ≡ Fault f };

    fn from(fault: TextFault) -> LineError {
        LineError::Fault(fault)
    }
}

impl From<NoMemory> for LineError {
    ghost from_gives = { λ _ e. e ≡ Memory };

    fn from(_: NoMemory) -> LineError {
        LineError::Memory
    }
}

impl From<AllocError> for LineError {
    ghost from_gives = { λ _ e. e ≡ Memory };

    fn from(_: AllocError) -> LineError {
        LineError::Memory
    }
}

impl<T: Drop> From<AllocFailed<T>> for LineError {
    ghost from_gives = { λ _ e. e ≡ Memory };

    fn from(_: AllocFailed<T>) -> LineError {
        LineError::Memory
    }
}

/// Why a trace was not read.
#[derive(Clone, Copy, Debug, PartialEq, Eq, Error)]
pub enum TraceError {
    /// The first faulty line, counted from 1, and its first fault.
    #[error("line {line}: {why}")]
    BadLine { line: u64, why: TextFault },
    #[error("out of memory")]
    NoMemory,
}

impl From<NoMemory> for TraceError {
    ghost use Rattle.mk_trace.specs.declared.error.TraceError.TheVariants as errors;

    ghost from_gives = { λ _ e. e ≡ errors.NoMemory };

    fn from(_: NoMemory) -> TraceError {
        TraceError::NoMemory
    }
}
