//! The values and the writes of an attempt's items, done in order.
ghost use Rattle.std.specs.Prelude.{◌≡◌, ◌<◌, ◌≤◌, length, IfSome, OnOk};
ghost use Rattle.mk_client.specs.Computed as spec;

use mk_proc::{Item, Procs};
use mk_txn::{NoMemory, ReadItem, Value, WriteItem};
use std::alloc::Global;
use std::marker::Model;

/// The values that the read items gave so far, and the writes so far.
#[derive(Drop)]
pub struct Buffer {
    values: Vec<u64>,
    writes: Vec<WriteItem>,
}

impl Model for Buffer {
    ghost use Rattle.mk_client.specs.Computed as model;

    ghost Value = { model.Buffer };

    ghost view = { λ b. record { values = b.values.items; writes = b.writes.items } };
}

impl Buffer {
    pub fn new(alloc: Global) -> Buffer
        ensures { result ≡ spec.empty_buffer }
    {
        Buffer {
            values: Vec::new(alloc),
            writes: Vec::new(alloc),
        }
    }

    /// Does one item.
    pub fn take_item(
        &mut self,
        item: &Item,
        reads: &[ReadItem],
        procs: &Procs,
    ) -> Result<(), NoMemory>
        requires { length self.old.values ≤ 16 }
        ensures { OnOk result (self.new ≡ spec.after_item reads.now self.old item.now) }
    {
        match *item {
            Item::Read(key) => {
                let value = number_in(read_value(key, &self.writes, reads));
                self.values.push(value)?;
                Ok(())
            }
            Item::Write { key, value } => put(&mut self.writes, key, Value::Number(value)),
            Item::Compute { key, proc, arg } => {
                let value = procs.call(proc, &self.values, arg);
                put(&mut self.writes, key, Value::Number(value))
            }
            Item::Delete(key) => put(&mut self.writes, key, Value::Absent),
        }
    }

    pub fn into_writes(self) -> Vec<WriteItem>
        ensures { result.items ≡ self.writes }
    {
        let Buffer { values: _, writes } = self;
        writes
    }
}

// A value as a procedure sees it.
fn number_in(value: Value) -> u64
    ensures { result ≡ spec.number_in value }
{
    match value {
        Value::Number(number) => number,
        Value::Absent => 0,
    }
}

// What a read item gives.
fn read_value(key: u32, writes: &[WriteItem], reads: &[ReadItem]) -> Value
    ensures { result ≡ spec.read_value key writes.now reads.now }
{
    match buffered_value(key, writes) {
        Some(value) => value,
        None => fetched_value(key, reads).unwrap_or(Value::Number(0)),
    }
}

// The value that is buffered for the key.
fn buffered_value(key: u32, writes: &[WriteItem]) -> Option<Value>
    ensures { result ≡ spec.buffered_value key writes.now }
{
    let item = writes.iter().find(|item| item.key == key)?;
    Some(item.value)
}

// The value that was fetched of the key.
fn fetched_value(key: u32, reads: &[ReadItem]) -> Option<Value>
    ensures { result ≡ spec.fetched_value key reads.now }
{
    let item = reads.iter().find(|item| item.key == key)?;
    Some(item.value)
}

// Writes a value to a key, in place of one that is buffered.
#[tactic(auto, using(crate::proofs::PutLaws::put_is_at, crate::proofs::PutLaws::put_is_last))]
fn put(writes: &mut Vec<WriteItem>, key: u32, value: Value) -> Result<(), NoMemory>
    ensures { OnOk result (writes.new.items ≡ spec.put key value writes.old.items) }
{
    match place_of(key, writes) {
        Some(place) => writes[place].value = value,
        None => writes.push(WriteItem { key, value })?,
    }
    Ok(())
}

// The place of the write to a key.
fn place_of(key: u32, writes: &[WriteItem]) -> Option<usize>
    ensures place { result ≡ spec.place_of key writes.now }
    ensures within { IfSome result (λ place. place < length writes.now) }
{
    writes.iter().position(|item| item.key == key)
}
