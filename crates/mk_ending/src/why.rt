//! Why a call wrote no whole text.
ghost use Rattle.std.specs.Prelude.{◌≡◌};
ghost use Rattle.mk_ending.specs.Endings as spec;
ghost use Rattle.mk_ending.specs.declared.why.Why.TheVariants as reasons;

use mk_io::{Failed, ReadError};
use mk_spelling::TextFault;
use mk_txn::NoMemory;
use thiserror::Error;

/// What a call reads from its source.
#[derive(Clone, Copy)]
pub enum Grammar {
    Script,
    Trace,
}

/// Why a call wrote no whole text. It is printed as the program's line on standard error.
#[derive(Clone, Copy, Debug, PartialEq, Eq, Error)]
pub enum Why {
    /// The words are no form of words of the call.
    #[error("usage: meerkat run [--trace|--json|--follow] | gen NUMBER CLIENTS TXNS KEYS | check | at STAMP | why ID")]
    Usage,
    /// The bytes are not in the grammar: the first faulty line, counted from 1, and its first fault.
    #[error("line {line}: {why}")]
    Refused { line: u64, why: TextFault },
    /// The source failed.
    #[error("source fault")]
    SourceFault,
    /// The source has more bytes than the call takes.
    #[error("too long")]
    TooLong,
    /// The sink failed.
    #[error("sink fault")]
    SinkFault,
    /// There was no memory.
    #[error("no memory")]
    NoMemory,
    /// The run has no attempt of that name.
    #[error("no attempt")]
    NoAttempt,
}

fn refused_status(grammar: Grammar) -> u8
    ensures { result ≡ spec.refused_status grammar }
{
    match grammar {
        Grammar::Script => 2,
        Grammar::Trace => 8,
    }
}

impl Why {
    /// The status, from 1 to 10, of a call that reads this and ended so.
    pub fn status(self, grammar: Grammar) -> u8
        ensures { result ≡ spec.status_of grammar self }
    {
        match self {
            Why::Usage => 1,
            Why::Refused { .. } => refused_status(grammar),
            Why::SourceFault => 3,
            Why::TooLong => 4,
            Why::SinkFault => 5,
            Why::NoMemory => 9,
            Why::NoAttempt => 10,
        }
    }
}

impl From<ReadError> for Why {
    ghost from_gives = { λ e why. why ≡ spec.unread e };

    fn from(error: ReadError) -> Why {
        match error {
            ReadError::Fault => Why::SourceFault,
            ReadError::TooLong => Why::TooLong,
            ReadError::NoMemory => Why::NoMemory,
        }
    }
}

impl From<NoMemory> for Why {
    ghost from_gives = { λ _ why. why ≡ reasons.NoMemory };

    fn from(_: NoMemory) -> Why {
        Why::NoMemory
    }
}

impl From<Failed> for Why {
    ghost from_gives = { λ _ why. why ≡ reasons.SinkFault };

    fn from(_: Failed) -> Why {
        Why::SinkFault
    }
}
