//! The key calls under way.
ghost use Rattle.std.specs.Prelude.{◌≡◌};
ghost use Rattle.mk_model.specs.Conditions.{wanted, is_idle};
ghost use Rattle.mk_column.specs.HeldByCode.{work_of};

use crate::KeyCall;
use mk_txn::{Txn, TxnId};
use mk_valid::{Finishing, Validation};
use mk_words::Act;

/// A read, the validation of a transaction, or its end at a replica.
#[derive(Drop)]
pub(crate) enum Work {
    Idle,
    Fetching {
        id: TxnId,
        replica: u32,
        key: u32,
    },
    Validating {
        txn: Txn,
        replica: u32,
        epoch: u32,
        state: Validation,
    },
    Finishing {
        replica: u32,
        left: Finishing,
    },
}

impl Work {
    /// The key call that is wanted.
    pub(crate) fn wants(&self) -> Option<KeyCall>
        ensures { result ≡ wanted (work_of self.now) }
    {
        let (replica, (key, act)) = match self {
            Work::Idle => return None,
            Work::Fetching { replica, key, .. } => (*replica, (*key, Act::Get)),
            Work::Validating { replica, state, .. } => (*replica, state.next_act()?),
            Work::Finishing { replica, left } => (*replica, left.next_act()?),
        };
        Some(KeyCall { replica, key, act })
    }

    pub(crate) fn is_idle(&self) -> bool
        ensures { result ≡ is_idle (work_of self.now) }
    {
        matches!(self, Work::Idle)
    }
}
