//! What a replica keeps of each attempt of a column.
#![tactic(auto)]

ghost use Rattle.std.specs.Prelude.{◌≡◌, IfOk};
ghost use Rattle.mk_record.specs.Entries.{refusal_of};

mod record;

use mk_txn::{NoMemory, Outcome};
pub use mk_words::Entry;
pub use record::CoreRecord;
use std::alloc::Global;

/// Why a view is not promised, or an outcome not accepted in it.
#[derive(Clone, Copy, PartialEq, Eq)]
pub enum RecordError {
    /// The entry is final, with this outcome.
    Finished(Outcome),
    /// The entry has promised this view, which is higher.
    OldView(u32),
}

// Why the view is not promised, and nothing accepted in it.
fn refusal(entry: &Entry, view: u32) -> Option<RecordError>
    ensures { result ≡ refusal_of view entry.now }
{
    if let Some(outcome) = entry.last {
        Some(RecordError::Finished(outcome))
    } else if view < entry.view {
        Some(RecordError::OldView(entry.view))
    } else {
        None
    }
}

/// Copies of these entries, in their order.
pub fn copies(alloc: Global, entries: &[Entry]) -> Result<Vec<Entry>, NoMemory>
    ensures { IfOk result (λ copies. copies.items ≡ entries.now) }
{
    let mut copies = Vec::new(alloc);
    for entry in entries {
        copies.push(entry.copy()?)?;
    }
    Ok(copies)
}
