//! Outcomes in order of attempt.
ghost use Rattle.std.specs.Prelude.{◌≡◌, ◌<◌, ◌≤◌, length, IsTrue, OnOk, OnErr};
ghost use Rattle.mk_words.specs.KeptOutcomes.{AreInIdOrder, put_outcome, outcome_of, not_covered};
ghost use Rattle.mk_trim.specs.Places.{place_of, has_outcome};

use mk_txn::{Marks, NoMemory, Outcome, TxnId, id_precedes, same_id};

// How many of the attempts stand before this one.
fn place(outcomes: &[(TxnId, Outcome)], id: TxnId) -> usize
    requires { AreInIdOrder outcomes.now }
    ensures value { result ≡ place_of id outcomes.now }
    ensures bound { result ≤ length outcomes.now }
{
    outcomes.partition_point(|outcome| id_precedes(outcome.0, id))
}

// Whether the outcome at this attempt's place is its own.
fn stands_at(outcomes: &[(TxnId, Outcome)], place: usize, id: TxnId) -> bool
    requires { place ≡ place_of id outcomes.now }
    ensures value { result ≡ has_outcome id outcomes.now }
    ensures within { IsTrue result → place < length outcomes.now }
{
    place < outcomes.len() && same_id(outcomes[place].0, id)
}

// The outcome of this attempt.
pub(crate) fn find(outcomes: &[(TxnId, Outcome)], id: TxnId) -> Option<Outcome>
    requires { AreInIdOrder outcomes.now }
    ensures { result ≡ outcome_of id outcomes.now }
{
    let place = place(outcomes, id);
    if stands_at(outcomes, place, id) {
        Some(outcomes[place].1)
    } else {
        None
    }
}

// The outcome at its place, unless the attempt has one.
pub(crate) fn put(
    outcomes: &mut Vec<(TxnId, Outcome)>,
    id: TxnId,
    outcome: Outcome,
) -> Result<(), NoMemory>
    requires { AreInIdOrder outcomes.old.items }
    ensures ok { OnOk result (outcomes.new.items ≡ put_outcome id outcome outcomes.old.items) }
    ensures err { OnErr result (outcomes.new.items ≡ outcomes.old.items) }
{
    let place = place(outcomes.as_slice(), id);
    if !stands_at(outcomes.as_slice(), place, id) {
        outcomes.insert(place, (id, outcome))?;
    }
    Ok(())
}

// Drops the outcomes that the marks cover.
pub(crate) fn drop_covered(outcomes: &mut Vec<(TxnId, Outcome)>, marks: &Marks)
    ensures { outcomes.new.items ≡ not_covered marks.now outcomes.old.items }
{
    outcomes.retain(|outcome| !marks.covers(outcome.0));
}
