//! The lines of what the one copy holds.
ghost use Rattle.std.specs.Prelude.{◌≡◌, ◌++◌, ◌%◌, ◌^◌, sum, IfOk, OnOk, map};
ghost use Rattle.std.specs.String.{string_bytes};
ghost use Rattle.mk_model.specs.OneCopy.{version_in};
ghost use Rattle.mk_report.specs.StoreTexts as spec;
ghost use Rattle.mk_report.specs.Seen.{seen_entry};

use crate::lines::{put_store, put_summed};
use crate::parts::name_of;
use mk_names::Names;
use mk_replay::OneCopy;
use mk_txn::{NoMemory, Stamp, Value, precedes};
use std::alloc::{AllocError, Global};
use std::collections::BTreeMap;

pub(crate) const ZERO: Stamp = Stamp { time: 0, client: 0 };

/// The numbers of the names, the names ascending by their bytes.
pub fn by_name<'a>(alloc: Global, names: &'a Names) -> Result<BTreeMap<&'a str, u32>, NoMemory>
    ensures { IfOk result (λ table. map seen_entry table.entries ≡ spec.by_name names.now.names) }
{
    let mut table = BTreeMap::new(alloc);
    'each: for number in 0..names.len() {
        table.insert(name_of(names, number), number)?;
    }
    Ok(table)
}

/// Writes the line of what is held of a key, where it was written.
pub fn put_held(
    out: &mut String,
    name: &str,
    version: Stamp,
    value: Value,
) -> Result<(), AllocError>
    ensures { OnOk result (string_bytes out.new ≡ string_bytes out.old ++ spec.held_text name.now (record { version = version; value = value })) }
{
    if precedes(ZERO, version) {
        put_store(out, name, version, value)
    } else {
        Ok(())
    }
}

fn put_key(out: &mut String, copy: &OneCopy, name: &str, key: u32) -> Result<(), AllocError>
    ensures { OnOk result (string_bytes out.new ≡ string_bytes out.old ++ spec.entry_text copy.now (name.now, key)) }
{
    let (version, value) = copy.get(key);
    put_held(out, name, version, value)
}

/// Writes a line for each key that was written and has a number, in byte order of names.
pub fn put_stores(
    out: &mut String,
    alloc: Global,
    keys: &Names,
    copy: &OneCopy,
) -> Result<(), NoMemory>
    ensures { OnOk result (string_bytes out.new ≡ string_bytes out.old ++ spec.stores_text keys.now.names copy.now) }
{
    let table = by_name(alloc, keys)?;
    'each: for (name, number) in &table {
        put_key(out, copy, name, *number)?;
    }
    Ok(())
}

fn push_held(numbers: &mut Vec<u64>, version: Stamp, value: Value) -> Result<(), NoMemory>
    ensures { OnOk result (numbers.new.items ≡ numbers.old.items ++ spec.held_number (record { version = version; value = value })) }
{
    match value {
        Value::Number(n) if precedes(ZERO, version) => numbers.push(n)?,
        _ => {}
    }
    Ok(())
}

fn push_number(numbers: &mut Vec<u64>, copy: &OneCopy, key: u32) -> Result<(), NoMemory>
    ensures { OnOk result (numbers.new.items ≡ numbers.old.items ++ spec.held_number (version_in copy.now key)) }
{
    let (version, value) = copy.get(key);
    push_held(numbers, version, value)
}

/// The numbers of the lines of what the one copy holds.
fn stored_numbers(alloc: Global, keys: &Names, copy: &OneCopy) -> Result<Vec<u64>, NoMemory>
    ensures { IfOk result (λ numbers. numbers.items ≡ spec.stored_numbers keys.now.names copy.now) }
{
    let table = by_name(alloc, keys)?;
    let mut numbers = Vec::new(alloc);
    'each: for (_, number) in &table {
        push_number(&mut numbers, copy, *number)?;
    }
    Ok(numbers)
}

/// The sum modulo 2^64.
fn wrapped_sum(numbers: &[u64]) -> u64
    ensures { result ≡ sum numbers.now % 2 ^ 64 }
{
    let mut sum: u64 = 0;
    'each: for n in numbers {
        sum = sum.wrapping_add(*n);
    }
    sum
}

/// Writes how many lines the one copy has, and what their numbers come to modulo 2^64.
pub fn put_sum(
    out: &mut String,
    alloc: Global,
    keys: &Names,
    copy: &OneCopy,
) -> Result<(), NoMemory>
    ensures { OnOk result (string_bytes out.new ≡ string_bytes out.old ++ spec.sum_text keys.now.names copy.now) }
{
    let numbers = stored_numbers(alloc, keys, copy)?;
    put_summed(out, numbers.len() as u64, wrapped_sum(&numbers))?;
    Ok(())
}
