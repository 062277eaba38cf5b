//! Whether two transactions clash.
ghost use Rattle.std.specs.Prelude.{◌≡◌};
ghost use Rattle.mk_txn.specs.Clashes.{clashes, conflict};

use crate::faults::is_written;
use crate::stamping::precedes;
use crate::transaction::Txn;

/// Whether one of the two read a key that the other wrote between the version read and the reader's stamp.
pub fn conflicts(a: &Txn, b: &Txn) -> bool
    ensures { result ≡ conflict a.now b.now }
{
    clash(a, b) || clash(b, a)
}

// Whether the writer stands between the reader and a version that it read.
fn clash(reader: &Txn, writer: &Txn) -> bool
    ensures { result ≡ clashes reader.now writer.now }
{
    let stamp = writer.stamp();
    let end = reader.stamp();
    reader.reads().iter().any(|item| is_written(item.key, writer.writes())
        && precedes(item.version, stamp)
        && precedes(stamp, end))
}
