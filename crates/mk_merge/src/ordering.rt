//! The transactions that entries report, in order of their numbers and in order of their stamps.
ghost use Rattle.std.specs.Prelude.{◌≡◌, ◌++◌, map, filter, IfOk, OnOk};
ghost use Rattle.mk_txn.specs.Transactions.{AreCoherent};
ghost use Rattle.mk_lists.specs.Among.{AllDistinct};
ghost use Rattle.mk_words.specs.Bases.{in_id_order, in_stamp_order as is_in_stamp_order};
ghost use Rattle.mk_merge_laws.specs.Adding.{is_new as is_new_to, entered_txns, new_txns as are_new};

use crate::handing::Handed;
use mk_trim::Kept;
use mk_txn::{Known, NoMemory, Stamp, Txn, TxnId};
use mk_words::Entry;
use std::alloc::Global;
use std::collections::BTreeMap;

// Whether nothing is kept of the attempt, and it is not forgotten.
fn is_new(kept: &Kept, id: TxnId) -> bool
    ensures { result ≡ is_new_to kept.now id }
{
    match kept.fate(id) {
        Known::Absent => true,
        _ => false,
    }
}

// The transactions of new attempts among entries besides.
fn add_new<'a>(txns: &mut Vec<&'a Txn>, kept: &Kept, entries: &'a [Entry]) -> Result<(), NoMemory>
    ensures { OnOk result (map (λ t. t.now) txns.new.items ≡ map (λ t. t.now) txns.old.items ++ filter (λ txn. is_new_to kept.now txn.id) (map (λ e. e.txn) entries.now)) }
{
    for entry in entries {
        if is_new(kept, entry.txn.id()) {
            txns.push(&entry.txn)?;
        }
    }
    Ok(())
}

// The transactions of new attempts of all entries, some of them repeatedly.
fn all_new<'a>(
    alloc: Global,
    kept: &Kept,
    promises: &[Handed<'a>],
) -> Result<Vec<&'a Txn>, NoMemory>
    ensures { IfOk result (λ txns. map (λ t. t.now) txns.items ≡ filter (λ txn. is_new_to kept.now txn.id) (entered_txns promises.now)) }
{
    let mut txns = Vec::new(alloc);
    for promise in promises {
        add_new(&mut txns, kept, promise.entries())?;
    }
    Ok(txns)
}

// Each transaction once, by its number.
fn by_id<'a>(alloc: Global, txns: &[&'a Txn]) -> Result<BTreeMap<TxnId, &'a Txn>, NoMemory>
    requires { AreCoherent (map (λ t. t.now) txns.now) }
    ensures { IfOk result (λ table. map (λ e. e.1.now) table.entries ≡ in_id_order (map (λ t. t.now) txns.now)) }
{
    let mut table = BTreeMap::new(alloc);
    let mut left = txns.len();
    while left > 0 {
        left -= 1;
        let txn = txns[left];
        table.insert(txn.id(), txn)?;
    }
    Ok(table)
}

// The transactions of a table, in its order.
fn listed_by_id<'a>(
    alloc: Global,
    table: &BTreeMap<TxnId, &'a Txn>,
) -> Result<Vec<&'a Txn>, NoMemory>
    ensures { IfOk result (λ txns. map (λ t. t.now) txns.items ≡ map (λ e. e.1.now) table.now.entries) }
{
    let mut txns = Vec::new(alloc);
    for (_, txn) in table {
        txns.push(*txn)?;
    }
    Ok(txns)
}

// The transactions of new attempts, in order of number.
pub(crate) fn new_txns<'a>(
    alloc: Global,
    kept: &Kept,
    promises: &[Handed<'a>],
) -> Result<Vec<&'a Txn>, NoMemory>
    requires { AreCoherent (entered_txns promises.now) }
    ensures { IfOk result (λ txns. map (λ t. t.now) txns.items ≡ are_new kept.now promises.now) }
{
    let all = all_new(alloc, kept, promises)?;
    let table = by_id(alloc, all.as_slice())?;
    listed_by_id(alloc, &table)
}

// Transactions of distinct stamps in order of stamp.
fn by_stamp<'a>(alloc: Global, txns: &[&'a Txn]) -> Result<BTreeMap<Stamp, &'a Txn>, NoMemory>
    requires { AllDistinct (map (λ t. t.now.stamp) txns.now) }
    ensures { IfOk result (λ table. map (λ e. e.1.now) table.entries ≡ is_in_stamp_order (map (λ t. t.now) txns.now)) }
{
    let mut table = BTreeMap::new(alloc);
    let mut left = txns.len();
    while left > 0 {
        left -= 1;
        let txn = txns[left];
        table.insert(txn.stamp(), txn)?;
    }
    Ok(table)
}

// The same transactions in order of stamp.
pub(crate) fn in_stamp_order<'a>(alloc: Global, txns: &[&'a Txn]) -> Result<Vec<&'a Txn>, NoMemory>
    requires { AllDistinct (map (λ t. t.now.stamp) txns.now) }
    ensures { IfOk result (λ ordered. map (λ t. t.now) ordered.items ≡ is_in_stamp_order (map (λ t. t.now) txns.now)) }
{
    let table = by_stamp(alloc, txns)?;
    let mut ordered = Vec::new(alloc);
    for (_, txn) in &table {
        ordered.push(*txn)?;
    }
    Ok(ordered)
}
