//! The list of the messages that were sent.
ghost use Rattle.std.specs.Prelude.{◌≡◌, ◌+◌, ◌≤◌, [], ◌∷◌, ◌++◌, length, OnOk, OnErr, IfOk, IsOk, option_copied};
ghost use Rattle.mk_words.specs.Links.{message, count_of, place_of};

use crate::{Msg, MsgKind};
use mk_txn::{NoMemory, TxnId};
use std::alloc::Global;
use std::collections::HashMap;
use std::marker::Model;

// What messages are counted by: their kind, attempt and replica.
#[derive(Clone, Copy, PartialEq, Eq, Hash)]
struct Stream {
    kind: u8,
    client: u32,
    seq: u32,
    replica: u32,
}

impl Stream {
    ghost use Rattle.mk_words.specs.Links.{kind_number};

    fn new(kind: MsgKind, id: TxnId, replica: u32) -> Stream
        ensures { result ≡ record { kind = kind_number kind; client = id.client; seq = id.seq; replica = replica } }
    {
        Stream {
            kind: kind as u8,
            client: id.client,
            seq: id.seq,
            replica,
        }
    }
}

/// All messages sent so far, in the order of sending. Their numbers count from 1.
#[derive(Drop)]
pub struct Link {
    messages: Vec<Msg>,
    // beside each message its place among those of its kind, attempt and replica
    places: Vec<u64>,
    counts: HashMap<Stream, u64>,
}

impl Model for Link {
    ghost use Rattle.std.specs.Prelude.{◌-◌, min, vec_len, vec_capacity};
    ghost use Rattle.std.specs.HashMap.{spare};
    ghost use Rattle.mk_msg.specs.Sendings.{LinkView};

    ghost Value = { LinkView };

    ghost use Rattle.mk_msg.specs.Indexes.{IsIndexed};

    ghost view = { λ link. record { messages = link.messages.items; spare = min (spare link.counts) (min (vec_capacity link.messages - vec_len link.messages) (vec_capacity link.places - vec_len link.places)) } };

    ghost invariant = { λ link. IsIndexed link.messages.items link.places.items link.counts.entries };
}

impl Link {
    /// No messages.
    pub fn new(alloc: Global) -> Link
        ensures { result.messages ≡ [] }
    {
        Link {
            messages: Vec::new(alloc),
            places: Vec::new(alloc),
            counts: HashMap::new(alloc),
        }
    }

    /// How many messages were sent.
    pub fn len(&self) -> u64
        ensures { result ≡ length self.now.messages }
    {
        self.messages.len() as u64
    }

    /// The message of this number, counted from 1.
    pub fn get(&self, number: u64) -> Option<&Msg>
        ensures { option_copied result ≡ message self.now.messages number }
    {
        if number == 0 {
            return None;
        }
        self.messages.get((number - 1) as usize)
    }

    /// How many messages of this kind, attempt and replica were sent.
    pub fn count(&self, kind: MsgKind, id: TxnId, replica: u32) -> u64
        ensures { result ≡ count_of self.now.messages kind id replica }
    {
        let stream = Stream::new(kind, id, replica);
        self.counts.get(&stream).copied().unwrap_or(0)
    }

    /// The place of the message of this number among those of its kind, attempt and replica, counted from 1.
    pub fn place(&self, number: u64) -> Option<u64>
        ensures { result ≡ place_of self.now.messages number }
    {
        if number == 0 {
            return None;
        }
        self.places.get((number - 1) as usize).copied()
    }

    /// Makes room for so many messages more.
    pub fn reserve(&mut self, more: u32) -> Result<(), NoMemory>
        ensures same { self.new.messages ≡ self.old.messages }
        ensures kept { self.old.spare ≤ self.new.spare }
        ensures room { OnOk result (more ≤ self.new.spare) }
        ensures enough { more ≤ self.old.spare → IsOk result }
    {
        self.counts.reserve(more as usize)?;
        self.messages.reserve(more as usize)?;
        self.places.reserve(more as usize)?;
        Ok(())
    }

    /// Appends the message, and gives its number. There is room for it where some is spare.
    pub fn send(&mut self, msg: Msg) -> Result<u64, NoMemory>
        ensures ok { OnOk result (self.new.messages ≡ self.old.messages ++ msg ∷ []) }
        ensures number { IfOk result (λ number. number ≡ length self.old.messages + 1) }
        ensures err { OnErr result (self.new.messages ≡ self.old.messages) }
        ensures enough { 1 ≤ self.old.spare → IsOk result }
        ensures spare { self.old.spare ≤ self.new.spare + 1 }
    {
        self.reserve(1)?;
        let kind = msg.body.kind();
        let stream = Stream::new(kind, msg.id, msg.replica);
        let before = self.count(kind, msg.id, msg.replica);
        if self.messages.push(msg).is_err() {
            unreachable!();
        }
        let number = self.messages.len() as u64;
        let place = before + 1;
        if self.places.push(place).is_err() {
            unreachable!();
        }
        if self.counts.insert(stream, place).is_err() {
            unreachable!();
        }
        Ok(number)
    }
}
