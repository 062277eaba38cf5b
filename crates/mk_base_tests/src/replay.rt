ghost use Rattle.std.specs.Prelude.{◌≡◌, IfOk};

use mk_replay::{Unexplained, replay, unexplained};
use mk_txn::{ReadItem, Stamp, Txn, TxnError, TxnId, Value, WriteItem};
use std::alloc::Global;
use std::test::Fail;

const START: Stamp = Stamp { time: 0, client: 0 };

const WRITTEN: Stamp = Stamp {
    time: 20,
    client: 1,
};

const RAISED: Stamp = Stamp {
    time: 21,
    client: 2,
};

const READER: TxnId = TxnId { client: 2, seq: 1 };

// 1.1 at 20.1 writes 7 to key 0.
fn writer(alloc: Global) -> Result<Txn, TxnError>
    ensures { IfOk result (λ txn. txn.stamp ≡ WRITTEN) }
{
    let write = WriteItem {
        key: 0,
        value: Value::Number(7),
    };
    Txn::new(alloc, TxnId { client: 1, seq: 1 }, WRITTEN, &[], &[write])
}

// 2.1 at 21.2 reads 7 of key 0 at this version, and deletes key 1.
fn reader(alloc: Global, version: Stamp) -> Result<Txn, TxnError>
    ensures { IfOk result (λ txn. txn.stamp ≡ RAISED) }
{
    let read = ReadItem {
        key: 0,
        version,
        value: Value::Number(7),
    };
    let write = WriteItem {
        key: 1,
        value: Value::Absent,
    };
    Txn::new(alloc, READER, RAISED, &[read], &[write])
}

#[test]
fn the_copy_holds_what_was_written(rt: HostRuntime) -> Result<(), Fail> {
    let commits = [reader(rt.alloc(), WRITTEN)?, writer(rt.alloc())?];
    let copy = replay(rt.alloc(), &commits)?;
    for (key, held) in [
        (0, (WRITTEN, Value::Number(7))),
        (1, (RAISED, Value::Absent)),
        (2, (START, Value::Number(0))),
    ] {
        assert!(rt; copy.get(key) == held);
    }
    Ok(())
}

#[test]
fn reads_are_explained_by_what_was_written(rt: HostRuntime) -> Result<(), Fail> {
    for (version, first) in [
        (WRITTEN, None),
        (START, Some(Unexplained { id: READER, key: 0 })),
    ] {
        let commits = [reader(rt.alloc(), version)?, writer(rt.alloc())?];
        assert!(rt; unexplained(rt.alloc(), &commits)? == first);
    }
    Ok(())
}
