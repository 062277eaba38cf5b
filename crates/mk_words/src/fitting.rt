//! Which answers an act can get.
ghost use Rattle.std.specs.Prelude.{◌≡◌};
ghost use Rattle.mk_words.specs.Acts.{answer_fits, refuses_read};

use crate::{Act, Answer};
use mk_txn::Reason;

fn of_a_read(reason: Reason) -> bool
    ensures { result ≡ refuses_read reason }
{
    match reason {
        Reason::ReadStale | Reason::ReadPending => true,
        Reason::WriteLate | Reason::WritePending => false,
    }
}

/// Whether the act can get an answer of this kind.
pub fn answers(act: &Act, answer: &Answer) -> bool
    ensures { result ≡ answer_fits act.now answer.now }
{
    match act {
        Act::Get => matches!(answer, Answer::Version { .. }),
        Act::CheckRead { .. } => match answer {
            Answer::Okay => true,
            Answer::Refused { reason, .. } => of_a_read(*reason),
            _ => false,
        },
        Act::CheckWrite { .. } => match answer {
            Answer::Okay => true,
            Answer::Refused { reason, .. } => !of_a_read(*reason),
            _ => false,
        },
        _ => matches!(answer, Answer::Done),
    }
}
