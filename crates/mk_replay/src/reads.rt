//! Reads, held against a copy.
ghost use Rattle.std.specs.Prelude.{◌≡◌};
ghost use Rattle.mk_model.specs.Explained.{first_unlike, holds_read};

use crate::one_copy::OneCopy;
use mk_txn::{ReadItem, TxnId};

/// A read that the commits below its stamp do not explain: the attempt that made it, and the key.
#[derive(Clone, Copy, PartialEq, Eq)]
pub struct Unexplained {
    pub id: TxnId,
    pub key: u32,
}

// The key of the first read that the copy does not hold.
pub(crate) fn find_unlike(copy: &OneCopy, reads: &[ReadItem]) -> Option<u32>
    ensures { result ≡ first_unlike copy.now reads.now }
{
    reads
        .iter()
        .find(|item| !holds(copy, item))
        .map(|item| item.key)
}

fn holds(copy: &OneCopy, item: &ReadItem) -> bool
    ensures { result ≡ holds_read copy.now item.now }
{
    copy.get(item.key) == (item.version, item.value)
}
