//! Why parts make no transaction.
ghost use Rattle.std.specs.Prelude.{◌≡◌, ◌==◌};
ghost use Rattle.std.specs.List.{list_any};
ghost use Rattle.mk_txn.specs.TxnFaults.{txn_fault, repeated_key, key_not_above};
ghost use Rattle.mk_txn.specs.Transactions.{read_keys, write_keys};

use crate::stamping::precedes;
use crate::{ReadItem, Stamp, WriteItem};
use std::alloc::AllocError;

/// The most reads, and the most writes, of a transaction.
const MOST_ITEMS: usize = 16;

/// Why the parts make no transaction.
#[derive(Clone, Copy, Debug, PartialEq, Eq)]
pub enum TxnError {
    /// There are more than 16 reads or more than 16 writes.
    TooMany,
    /// This key stands twice among the reads, or twice among the writes.
    Repeated(u32),
    /// The version read of this key is not below the stamp.
    NotAbove(u32),
    NoMemory,
}

impl From<AllocError> for TxnError {
    ghost use Rattle.mk_txn.specs.declared.faults.TxnError.TheVariants.{NoMemory};

    ghost from_gives = { λ _ error. error ≡ NoMemory };

    fn from(_: AllocError) -> TxnError {
        TxnError::NoMemory
    }
}

// The first fault of such a transaction.
pub(crate) fn find_fault(stamp: Stamp, reads: &[ReadItem], writes: &[WriteItem]) -> Option<TxnError>
    ensures { result ≡ txn_fault stamp reads.now writes.now }
{
    if reads.len() > MOST_ITEMS || writes.len() > MOST_ITEMS {
        return Some(TxnError::TooMany);
    }
    if let Some(key) = repeated_read(reads) {
        return Some(TxnError::Repeated(key));
    }
    if let Some(key) = repeated_write(writes) {
        return Some(TxnError::Repeated(key));
    }
    read_not_below(stamp, reads).map(TxnError::NotAbove)
}

fn repeated_read(reads: &[ReadItem]) -> Option<u32>
    ensures { result ≡ repeated_key (read_keys reads.now) }
{
    for (i, item) in reads.iter().enumerate() {
        if is_read(item.key, &reads[i + 1..]) {
            return Some(item.key);
        }
    }
    None
}

fn repeated_write(writes: &[WriteItem]) -> Option<u32>
    ensures { result ≡ repeated_key (write_keys writes.now) }
{
    for (i, item) in writes.iter().enumerate() {
        if is_written(item.key, &writes[i + 1..]) {
            return Some(item.key);
        }
    }
    None
}

fn is_read(key: u32, reads: &[ReadItem]) -> bool
    ensures { result ≡ list_any (λ item. item.key == key) reads.now }
{
    reads.iter().any(|item| item.key == key)
}

pub(crate) fn is_written(key: u32, writes: &[WriteItem]) -> bool
    ensures { result ≡ list_any (λ item. item.key == key) writes.now }
{
    writes.iter().any(|item| item.key == key)
}

fn read_not_below(stamp: Stamp, reads: &[ReadItem]) -> Option<u32>
    ensures { result ≡ key_not_above stamp reads.now }
{
    reads
        .iter()
        .find(|item| !precedes(item.version, stamp))
        .map(|item| item.key)
}
