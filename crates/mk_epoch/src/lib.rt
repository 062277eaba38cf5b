//! Epoch changes: words, promises, bases and adoptions.
#![tactic(auto)]

mod change;
mod replica;
mod replicas;

use mk_txn::NoMemory;
pub use replicas::Replicas;

/// Why a step of an epoch change is refused.
#[derive(Clone, Copy, Debug, PartialEq, Eq)]
pub enum EpochError {
    /// Nobody asked for this epoch.
    Unasked,
    /// The epoch has no base.
    Unmade,
    /// The replica has lost its state.
    Lacking,
    /// The epoch is too old for the replica, whose epoch word this is.
    Old(u32),
    /// The epoch word could not be written.
    WordFault,
    /// Too few replicas promised or adopted, or the leader's promise is missing; this many did.
    Short(u32),
    NoMemory,
}

impl From<NoMemory> for EpochError {
    ghost use Rattle.std.specs.Prelude.{◌≡◌};
    ghost use Rattle.mk_epoch.specs.declared.EpochError.TheVariants as errors;

    ghost from_gives = { λ _ error. error ≡ errors.NoMemory };

    fn from(_: NoMemory) -> EpochError {
        EpochError::NoMemory
    }
}
