ghost use Rattle.std.specs.Prelude.{◌≡◌};
ghost use Rattle.mk_script.specs.declared.error.LineError.TheVariants.{Memory, Fault};
ghost use Rattle.mk_script.specs.Numbered.{unnumbered};

use mk_names::NameError;
use mk_text::TextFault;
use mk_txn::NoMemory;
use std::alloc::{AllocError, AllocFailed};

/// Why a line was not taken.
#[derive(Drop)]
pub enum LineError {
    Memory,
    Fault(TextFault),
}

impl From<TextFault> for LineError {
    ghost from_gives = { λ f e. e ≡ Fault f };

    fn from(fault: TextFault) -> LineError {
        LineError::Fault(fault)
    }
}

impl From<NameError> for LineError {
    ghost from_gives = { λ e o. o ≡ unnumbered e };

    fn from(error: NameError) -> LineError {
        match error {
            NameError::BadName => LineError::Fault(TextFault::Name),
            NameError::Full => LineError::Fault(TextFault::Many),
            NameError::NoMemory => LineError::Memory,
        }
    }
}

impl From<NoMemory> for LineError {
    ghost from_gives = { λ _ e. e ≡ Memory };

    fn from(_: NoMemory) -> LineError {
        LineError::Memory
    }
}

impl From<AllocError> for LineError {
    ghost from_gives = { λ _ e. e ≡ Memory };

    fn from(_: AllocError) -> LineError {
        LineError::Memory
    }
}

impl<T: Drop> From<AllocFailed<T>> for LineError {
    ghost from_gives = { λ _ e. e ≡ Memory };

    fn from(_: AllocFailed<T>) -> LineError {
        LineError::Memory
    }
}
