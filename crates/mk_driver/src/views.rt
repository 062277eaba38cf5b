//! What the driver sees of its column.
ghost use Rattle.std.specs.Prelude.{◌≡◌, ◌+◌, ◌%◌, length, option_map, IsSome};
ghost use Rattle.mk_words.specs.Links.{message};
ghost use Rattle.mk_quorum.specs.Sizes.{members};
ghost use Rattle.mk_faults.specs.Fates.{fate_at};
ghost use Rattle.mk_model.specs.Conditions.{heard_by};
ghost use Rattle.mk_driver.specs.Delivery.{own_learned};
ghost use Rattle.mk_driver.specs.Stages.{reader_for as first_reader};

use mk_column::Column;
use mk_faults::Rules;
use mk_quorum::Size;
use mk_script::Fate;
use mk_txn::{Outcome, TxnId};

/// How many messages were sent.
pub(crate) fn sent(column: &Column) -> u64
    ensures { result ≡ length column.now.state.link }
{
    column.link().len()
}

/// The attempt of the message of this number.
pub(crate) fn attempt_at(column: &Column, number: u64) -> Option<TxnId>
    ensures { result ≡ option_map (λ msg. msg.id) (message column.now.state.link number) }
{
    match column.link().get(number) {
        Some(msg) => Some(msg.id),
        None => None,
    }
}

/// The fate of the message of this number.
pub(crate) fn fate(column: &Column, number: u64, rules: &Rules) -> Fate
    ensures { result ≡ fate_at rules.now column.now.state.link number }
{
    let Some(msg) = column.link().get(number) else {
        return Fate::Deliver;
    };
    let Some(place) = column.link().place(number) else {
        return Fate::Deliver;
    };
    rules.fate_of(msg.body.kind(), msg.id, msg.replica, place)
}

/// What the attempt's own coordinator has learned.
pub(crate) fn learned(column: &Column, id: TxnId) -> Option<Outcome>
    ensures { result ≡ own_learned column.now.state id }
{
    match column.attempt(id) {
        Some(attempt) => attempt.learned,
        None => None,
    }
}

// The replica that comes so many places after the home, in cyclic order.
fn replica_after(size: Size, home: u32, places: u32) -> u32
    ensures { result ≡ (home + places) % members size }
{
    ((home as u64 + places as u64) % size.n() as u64) as u32
}

/// The first replica from the home upwards that serves an epoch which the client may begin in.
pub(crate) fn reader_for(column: &Column, size: Size, client: u32, home: u32) -> Option<u32>
    requires { column.now.setting.faults ≡ size }
    ensures { result ≡ first_reader column.now.setting home (heard_by column.now.state client) }
{
    for places in 0..size.n() {
        let replica = replica_after(size, home, places);
        if column.serves_client(client, replica) {
            return Some(replica);
        }
    }
    None
}
