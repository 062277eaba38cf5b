ghost use Rattle.std.specs.Prelude.{◌≡◌};

use mk_txn::{
    LAST_TIME, Marks, NoMemory, ReadItem, Stamp, Txn, TxnError, TxnId, Value, WriteItem, conflicts,
    id_precedes, later, next_stamp, precedes, same_id, same_stamp,
};
use std::test::Fail;

const START: Stamp = Stamp { time: 0, client: 0 };

const EARLY: Stamp = Stamp {
    time: 10,
    client: 1,
};

const LATE: Stamp = Stamp {
    time: 11,
    client: 2,
};

const FIRST: TxnId = TxnId { client: 1, seq: 1 };

const SECOND: TxnId = TxnId { client: 2, seq: 1 };

fn read(key: u32, version: Stamp) -> ReadItem
    ensures { result.version ≡ version }
{
    ReadItem {
        key,
        version,
        value: Value::Number(0),
    }
}

fn write(key: u32) -> WriteItem {
    WriteItem {
        key,
        value: Value::Number(5),
    }
}

#[test]
fn stamps_are_ordered_and_rise(rt: HostRuntime) {
    assert!(rt; precedes(EARLY, LATE) && !precedes(LATE, EARLY));
    assert!(rt; later(EARLY, LATE) == LATE);
    assert!(rt; same_stamp(EARLY, EARLY) && !same_stamp(EARLY, LATE));
    assert!(rt; same_id(FIRST, FIRST) && !same_id(FIRST, SECOND));
    assert!(rt; id_precedes(FIRST, SECOND) && !id_precedes(SECOND, FIRST));
    assert!(rt; next_stamp(1, LAST_TIME, 0, &[]).is_none());
    assert!(rt; next_stamp(1, 0, 0, &[]) == Some(Stamp { time: 1, client: 1 }));
    assert!(rt; next_stamp(2, 0, 5, &[read(0, EARLY)]) == Some(LATE));
}

#[test]
fn a_pending_writer_is_in_conflict(rt: HostRuntime) -> Result<(), Fail> {
    let alloc = rt.alloc();
    let early = Txn::new(alloc, FIRST, EARLY, &[read(0, START)], &[write(0)])?;
    let late = Txn::new(alloc, SECOND, LATE, &[read(0, START)], &[write(0)])?;
    assert!(rt; conflicts(&early, &late));
    Ok(())
}

#[test]
fn sixteen_reads_and_writes_are_a_transaction(rt: HostRuntime) -> Result<(), Fail> {
    let mut reads = [read(0, START); 16];
    let mut writes = [write(0); 16];
    for key in 0..16 {
        reads[key as usize] = read(key, START);
        writes[key as usize] = write(key);
    }
    let txn = Txn::new(rt.alloc(), FIRST, EARLY, &reads, &writes)?.copy()?;
    assert!(rt; txn.id() == FIRST && txn.stamp() == EARLY);
    assert!(rt; txn.reads() == reads.as_slice());
    assert!(rt; txn.writes() == writes.as_slice());
    Ok(())
}

#[test]
fn parts_at_fault_make_no_transaction(rt: HostRuntime) {
    let many = [write(0); 17];
    let twice = [write(3), write(3)];
    let late = [read(1, LATE), read(1, START)];
    let repeated = [read(2, LATE), read(1, START), read(1, START)];
    let cases = [
        (late.as_slice(), many.as_slice(), TxnError::TooMany),
        (repeated.as_slice(), &[], TxnError::Repeated(1)),
        (&late[..1], twice.as_slice(), TxnError::Repeated(3)),
        (&late[..1], &[], TxnError::NotAbove(1)),
    ];
    for (reads, writes, fault) in cases {
        assert!(rt; Txn::new(rt.alloc(), FIRST, EARLY, reads, writes).err() == Some(fault));
    }
}

#[test]
fn marks_only_rise(rt: HostRuntime) -> Result<(), NoMemory> {
    let mut marks = Marks::new(rt.alloc());
    for (client, seq) in [(2, 3), (2, 1), (1, 4)] {
        marks.raise(client, seq)?;
    }
    let mut all = marks.copy()?;
    all.raise(3, 1)?;
    marks.raise(1, 5)?;
    all.join(&marks)?;
    assert!(rt; (all.get(1), all.get(2), all.get(3), all.get(4)) == (5, 3, 1, 0));
    assert!(rt;
        all.covers(TxnId { client: 2, seq: 3 }) && !all.covers(TxnId { client: 2, seq: 4 })
    );
    all.clear();
    assert!(rt; all.get(1) == 0);
    Ok(())
}
