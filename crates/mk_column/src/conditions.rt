//! The tests of which the conditions of steps are made.
ghost use Rattle.std.specs.Prelude.{◌≡◌, ◌≤◌, ◌&&◌, ◌+◌, nat_le, nat_lt, not, false, Some, is_some, is_none, length};
ghost use Rattle.mk_quorum.specs.Slots.{passes};
ghost use Rattle.mk_words.specs.Rulings.{ruling as ruling_of};
ghost use Rattle.mk_words.specs.Picks.{pick as pick_of};
ghost use Rattle.mk_model.specs.Replicas.{serves as serving_view};
ghost use Rattle.mk_model.specs.Conditions.{is_stamped as has_txn, may_read as may_read_key, acts_on as acts_on_ruling, picks_one as picks_one_of, serves_from as serving_from, first_failing as first_failing_from, same_call};
ghost use Rattle.mk_words.specs.Acts.{same_act};
ghost use Rattle.mk_column.specs.ClientsByCode.{seen_client};
ghost use Rattle.std.specs.List.{list_any};
ghost use Rattle.mk_column.specs.AttemptsByCode.{seen};
ghost use Rattle.mk_column.specs.TakeoversByCode.{seen_backup};

use crate::backup::Backup;
use crate::begun::Begun;
use crate::clients::Client;
use crate::replica::is_serving;
use crate::{KeyCall, ReplicaView, Writes};
use mk_words::{Act, Pick, Ruling};

/// The number of the first test that fails, counted from 2.
pub(crate) fn first_failing(tests: &[bool]) -> Option<u8>
    requires { length tests.now ≤ 8 }
    ensures { result ≡ first_failing_from 2 tests.now }
{
    let mut number = 2;
    for test in tests {
        if !*test {
            return Some(number);
        }
        number += 1;
    }
    None
}

pub(crate) fn is_reading(begun: Option<&Begun>) -> bool
    ensures { result ≡ passes (λ a. a.reading) (seen begun.entry) }
{
    match begun {
        Some(begun) => begun.is_reading(),
        None => false,
    }
}

pub(crate) fn may_read(begun: Option<&Begun>, key: u32) -> bool
    ensures { result ≡ passes (may_read_key key) (seen begun.entry) }
{
    match begun {
        Some(begun) => begun.may_read(key),
        None => false,
    }
}

pub(crate) fn is_stamped(begun: Option<&Begun>) -> bool
    ensures { result ≡ passes has_txn (seen begun.entry) }
{
    match begun {
        Some(begun) => begun.shown().txn.is_some(),
        None => false,
    }
}

pub(crate) fn is_going(begun: Option<&Begun>) -> bool
    ensures { result ≡ passes (λ a. not a.stopped) (seen begun.entry) }
{
    match begun {
        Some(begun) => !begun.shown().stopped,
        None => false,
    }
}

pub(crate) fn is_unlearned(begun: Option<&Begun>) -> bool
    ensures { result ≡ passes (λ a. is_none a.coord.learned) (seen begun.entry) }
{
    match begun {
        Some(begun) => begun.shown().learned.is_none(),
        None => false,
    }
}

pub(crate) fn is_undecided(begun: Option<&Begun>) -> bool
    ensures { result ≡ passes (λ a. is_none a.coord.proposed && is_none a.coord.learned) (seen begun.entry) }
{
    match begun {
        Some(begun) => begun.shown().proposed.is_none() && begun.shown().learned.is_none(),
        None => false,
    }
}

pub(crate) fn is_proposing(begun: Option<&Begun>) -> bool
    ensures { result ≡ passes (λ a. is_some a.coord.proposed && is_none a.coord.learned) (seen begun.entry) }
{
    match begun {
        Some(begun) => begun.shown().proposed.is_some() && begun.shown().learned.is_none(),
        None => false,
    }
}

pub(crate) fn may_stop(begun: Option<&Begun>) -> bool
    ensures { result ≡ passes (λ a. not a.stopped && is_none a.coord.learned) (seen begun.entry) }
{
    match begun {
        Some(begun) => !begun.shown().stopped && begun.shown().learned.is_none(),
        None => false,
    }
}

pub(crate) fn acts_on(ruling: Ruling) -> bool
    ensures { result ≡ acts_on_ruling ruling }
{
    match ruling {
        Ruling::Fast(_) => true,
        Ruling::Propose(_) => true,
        Ruling::Learned(_) => true,
        Ruling::Short(_) => false,
        Ruling::Unaccepted(_) => false,
    }
}

pub(crate) fn picks_one(pick: Pick) -> bool
    ensures { result ≡ picks_one_of pick }
{
    match pick {
        Pick::Known(_) => true,
        Pick::Learned(_) => true,
        Pick::Propose(_) => true,
        Pick::Short(_) => false,
        Pick::Unaccepted(_) => false,
        Pick::Unclear { .. } => false,
    }
}

pub(crate) fn is_open(backup: Option<&Backup>) -> bool
    ensures { result ≡ passes (λ t. not t.closed) (seen_backup backup.entry) }
{
    match backup {
        Some(backup) => !backup.is_closed(),
        None => false,
    }
}

/// Whether the replica serves this epoch or a later one.
pub(crate) fn serves_from(view: &ReplicaView, epoch: u32) -> bool
    ensures { result ≡ serving_from epoch view.now }
{
    is_serving(view.phase) && epoch <= view.epoch
}

/// Whether the replica serves this epoch.
pub(crate) fn serves(view: &ReplicaView, epoch: u32) -> bool
    ensures { result ≡ serving_view epoch (Some view.now) }
{
    is_serving(view.phase) && view.epoch == epoch
}

pub(crate) fn has_seq_left(client: Option<&Client>) -> bool
    ensures { result ≡ passes (λ c. nat_le c.next_seq 16384) (seen_client client.entry) }
{
    match client {
        Some(client) => client.next_seq <= 16_384,
        None => false,
    }
}

/// Whether no replica serves this epoch or a later one.
pub(crate) fn none_serves(views: &[ReplicaView], epoch: u32) -> bool
    ensures { result ≡ not (list_any (serving_from epoch) views.now) }
{
    for view in views {
        if serves_from(view, epoch) {
            return false;
        }
    }
    true
}

/// Whether the act is the one that is wanted.
pub(crate) fn is_act(a: Act, b: Act) -> bool
    ensures { result ≡ same_act a b }
{
    a == b
}

pub(crate) fn is_call(a: &KeyCall, b: &KeyCall) -> bool
    ensures { result ≡ same_call a.now b.now }
{
    a.replica == b.replica && a.key == b.key && is_act(a.act, b.act)
}

/// Whether the attempt or what it writes has an item.
pub(crate) fn has_items(begun: Option<&Begun>, writes: &Writes) -> bool
    ensures { result ≡ passes (λ a. nat_lt 0 (length a.reads + length writes.now)) (seen begun.entry) }
{
    match begun {
        Some(begun) => !begun.shown().reads.is_empty() || !writes.is_empty(),
        None => false,
    }
}
