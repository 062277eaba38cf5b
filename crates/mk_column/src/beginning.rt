//! An attempt begins.
ghost use Rattle.std.specs.Prelude.{◌≡◌, ◌≤◌, None, true, false, OnOk, OnErr};
ghost use Rattle.mk_words.specs.declared.Step.TheVariants.{Begin, Unread};
ghost use Rattle.mk_model.specs.Conditions.{blocked as blocked_by};
ghost use Rattle.mk_model.specs.Steps.{column_after};
ghost use Rattle.mk_column.specs.ClientsByCode.{client_begun, next_of};

use crate::begun::Begun;
use crate::clients::Client;
use crate::column::Column;
use mk_txn::{NoMemory, TxnId};

impl Column {
    // The client's next attempt begins to read at the replica.
    pub(crate) fn begin(&mut self, client: u32, replica: u32) -> Result<(), NoMemory>
        requires { blocked_by self.old.setting self.old.state (Begin client replica) ≡ None }
        ensures ok { OnOk result (self.new ≡ record self.old { state = column_after self.old.setting self.old.state (Begin client replica) }) }
        ensures err { OnErr result (self.new ≡ self.old) }
    {
        let alloc = *self.log.allocator();
        let epoch = self.views[replica as usize].epoch;
        let before = *self.parts.clients.find(client).unwrap();
        let id = next_id(&before);
        let begun = Begun::reading(alloc, self.size, id, replica, epoch);
        self.parts.attempts.push(begun)?;
        self.parts.clients.put(after_begin(&before, epoch, true));
        Ok(())
    }

    // The client's next attempt finds no replica to read at.
    pub(crate) fn begin_unread(&mut self, client: u32) -> Result<(), NoMemory>
        requires { blocked_by self.old.setting self.old.state (Unread client) ≡ None }
        ensures ok { OnOk result (self.new ≡ record self.old { state = column_after self.old.setting self.old.state (Unread client) }) }
        ensures err { OnErr result (self.new ≡ self.old) }
    {
        let alloc = *self.log.allocator();
        let before = *self.parts.clients.find(client).unwrap();
        let id = next_id(&before);
        self.parts
            .attempts
            .push(Begun::unread(alloc, self.size, id))?;
        if self.settled.settle(id).is_err() {
            self.parts.attempts.pop();
            return Err(NoMemory);
        }
        self.parts.clients.put(after_begin(&before, 0, false));
        Ok(())
    }
}

// The number of the client's next attempt.
fn next_id(client: &Client) -> TxnId
    ensures { result ≡ next_of client.now }
{
    TxnId {
        client: client.number,
        seq: client.next_seq,
    }
}

// The client once one more attempt of it has begun, in this epoch.
fn after_begin(client: &Client, epoch: u32, reading: bool) -> Client
    requires { client.now.next_seq ≤ 16384 }
    ensures { result ≡ client_begun epoch reading client.now }
{
    Client {
        number: client.number,
        last_time: client.last_time,
        next_seq: client.next_seq + 1,
        heard: client.heard.max(epoch),
        reading,
    }
}
