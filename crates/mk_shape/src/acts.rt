//! The ranges of acts and answers in a run of a head.
ghost use Rattle.std.specs.Prelude.{◌≡◌, []};
ghost use Rattle.mk_history.specs.Shape as spec;
ghost use Rattle.mk_kept.specs.Heads.{history};

use crate::numbers::{stamp_fits, value_fits};
use mk_kept::Head;
use mk_words::{Act, Answer, answers};

fn act_in_range(head: &Head, act: &Act) -> bool
    ensures { result ≡ spec.act_in_range (history head.now []) act.now }
{
    match act {
        Act::Get => true,
        Act::CheckRead { ts, version } => stamp_fits(*ts) && stamp_fits(*version),
        Act::CommitWrite { ts, value } => stamp_fits(*ts) && value_fits(head, *value),
        Act::CheckWrite { ts }
        | Act::CommitRead { ts }
        | Act::ReleaseRead { ts }
        | Act::ReleaseWrite { ts } => stamp_fits(*ts),
    }
}

fn answer_in_range(head: &Head, answer: &Answer) -> bool
    ensures { result ≡ spec.answer_in_range (history head.now []) answer.now }
{
    match answer {
        Answer::Version { version, value } => stamp_fits(*version) && value_fits(head, *value),
        Answer::Refused { stamp, .. } => stamp_fits(*stamp),
        Answer::Okay | Answer::Done => true,
    }
}

/// Whether the act can get an answer of this kind, and the stamps and values of both are in range.
pub fn turn_fits(head: &Head, act: &Act, answer: &Answer) -> bool
    ensures { result ≡ spec.turn_fits (history head.now []) act.now answer.now }
{
    answers(act, answer) && act_in_range(head, act) && answer_in_range(head, answer)
}
