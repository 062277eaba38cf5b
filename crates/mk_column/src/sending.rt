//! Sending one message to each replica.
ghost use Rattle.std.specs.Prelude.{◌≡◌, ◌≤◌, ◌++◌};
ghost use Rattle.mk_quorum.specs.Sizes.{members};
ghost use Rattle.mk_model.specs.ColumnState.{to_all};

use mk_msg::Link;
use mk_quorum::Size;
use mk_txn::TxnId;
use mk_words::{Body, Msg};

/// Sends this body to each replica, in order. There must be room.
pub(crate) fn send_to_all(link: &mut Link, size: Size, epoch: u32, id: TxnId, view: u32, body: Body)
    requires { members size ≤ link.old.spare }
    ensures { link.new.messages ≡ link.old.messages ++ to_all size epoch id view body }
{
    for replica in 0..size.n() {
        let msg = Msg {
            epoch,
            id,
            replica,
            view,
            body,
        };
        if link.send(msg).is_err() {
            unreachable!();
        }
    }
}
