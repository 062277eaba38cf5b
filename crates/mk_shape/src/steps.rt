//! The ranges of a step's and a journal entry's numbers in a run of a head.
ghost use Rattle.std.specs.Prelude.{◌≡◌, []};
ghost use Rattle.mk_history.specs.Shape as spec;
ghost use Rattle.mk_kept.specs.Heads.{history};
ghost use Rattle.mk_words.specs.declared.Step.TheVariants as steps;

use crate::acts::turn_fits;
use crate::numbers::{client_fits, id_fits, key_fits, replica_fits, view_fits, writes_fit};
use mk_kept::Head;
use mk_words::{Answer, JournalEntry, KeyCall, Step};

/// The greatest clock, 2^61.
const LAST_CLOCK: u64 = 2_305_843_009_213_693_952;

/// Whether every number of the step is in range.
pub fn step_fits(head: &Head, step: &Step) -> bool
    ensures { result ≡ spec.step_fits (history head.now []) step.now }
{
    match step {
        Step::Begin { client, replica } => {
            client_fits(head, *client) && replica_fits(head, *replica)
        }
        Step::Unread { client } => client_fits(head, *client),
        Step::Read { id, key } => id_fits(head, *id) && key_fits(head, *key),
        Step::Stamp { id, clock, writes } => {
            id_fits(head, *id) && *clock <= LAST_CLOCK && writes_fit(head, writes.as_slice())
        }
        Step::Take { number } => *number >= 1,
        Step::Key { call, answer } => call_fits(head, call, answer),
        Step::Takeover { id, view } | Step::Pick { id, view } => {
            id_fits(head, *id) && view_fits(*view)
        }
        Step::Validate { id } | Step::Rule { id } | Step::Again { id } | Step::Stop { id } => {
            id_fits(head, *id)
        }
    }
}

fn call_fits(head: &Head, call: &KeyCall, answer: &Answer) -> bool
    ensures { result ≡ spec.step_fits (history head.now []) (steps.Key call.now answer.now) }
{
    replica_fits(head, call.replica)
        && key_fits(head, call.key)
        && turn_fits(head, &call.act, answer)
}

/// Whether the entry names one of the columns, and its act and answer are in range.
pub fn entry_fits(head: &Head, entry: &JournalEntry) -> bool
    ensures { result ≡ spec.entry_fits (history head.now []) entry.now }
{
    entry.seat < head.columns && turn_fits(head, &entry.act, &entry.answer)
}
