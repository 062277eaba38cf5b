ghost use Rattle.std.specs.Prelude.{◌≤◌, length};

use mk_client::{ClientTxn, computed_writes, next_wanted};
use mk_proc::{Item, Proc, ProcKind, Procs, add, max, sum};
use mk_txn::{Stamp, Value, WriteItem};
use std::alloc::Global;
use std::process::Abort;
use std::test::Fail;

const START: Stamp = Stamp { time: 0, client: 0 };

const X: u32 = 0;

const Y: u32 = 1;

const Z: u32 = 2;

const GONE: WriteItem = WriteItem {
    key: X,
    value: Value::Absent,
};

fn is(key: u32, number: u64) -> WriteItem {
    WriteItem {
        key,
        value: Value::Number(number),
    }
}

fn compute(key: u32, proc: ProcKind, arg: u64) -> Item {
    Item::Compute { key, proc, arg }
}

fn standard() -> Procs {
    Procs::new(
        Proc::new(ProcKind::Add, add),
        Proc::new(ProcKind::Sum, sum),
        Proc::new(ProcKind::Max, max),
    )
}

// Whether an attempt of these items fetches these keys, and then writes this.
fn writes(
    rt: &impl Abort,
    alloc: Global,
    items: &[Item],
    fetched: &[(u32, Value)],
    written: &[WriteItem],
) -> Result<bool, Fail>
    requires some { 1 ≤ length items.now }
    requires few { length items.now ≤ 16 }
{
    let mut txn = ClientTxn::start(alloc, items)?;
    for (count, (key, value)) in fetched.iter().enumerate() {
        let wanted = txn.wanted();
        assert!(rt; wanted.is_some());
        if wanted != Some(*key) || next_wanted(items, count) != wanted {
            return Ok(false);
        }
        txn.take(START, *value)?;
    }
    let wanted = txn.wanted();
    assert!(rt; wanted.is_none());
    let procs = standard();
    let computed = computed_writes(alloc, items, txn.reads(), &procs)?;
    Ok(txn.writes(&procs)?.as_slice() == written && computed.as_slice() == written)
}

#[test]
fn each_attempt_computes_anew(rt: HostRuntime) -> Result<(), Fail> {
    let items = [Item::Read(X), compute(Y, ProcKind::Add, 7)];
    for (value, want) in [(0, 7), (5, 12)] {
        let fetched = [(X, Value::Number(value))];
        assert!(rt; writes(&rt, rt.alloc(), &items, &fetched, &[is(Y, want)])?);
    }
    Ok(())
}

#[test]
fn items_see_what_earlier_ones_wrote(rt: HostRuntime) -> Result<(), Fail> {
    let items = [
        Item::Write { key: X, value: 5 },
        Item::Read(X),
        Item::Read(Z),
        Item::Read(Z),
        compute(Y, ProcKind::Sum, 1),
        Item::Delete(X),
        Item::Read(X),
        compute(Z, ProcKind::Max, 3),
    ];
    let written = [GONE, is(Y, 26), is(Z, 10)];
    assert!(rt; writes(&rt, rt.alloc(), &items, &[(Z, Value::Number(10))], &written)?);
    Ok(())
}

#[test]
fn three_keys_are_fetched_in_order(rt: HostRuntime) -> Result<(), Fail> {
    let items = [
        Item::Read(Z),
        Item::Read(X),
        Item::Read(Z),
        Item::Read(Y),
        compute(X, ProcKind::Sum, 0),
    ];
    let fetched = [
        (Z, Value::Number(3)),
        (X, Value::Absent),
        (Y, Value::Number(4)),
    ];
    assert!(rt; next_wanted(&items, 3).is_none());
    assert!(rt; writes(&rt, rt.alloc(), &items, &fetched, &[is(X, 10)])?);
    Ok(())
}

// Two accounts X and Y, and a count of hits Z.
#[test]
fn ordinary_use(rt: HostRuntime) -> Result<(), Fail> {
    let opening = [
        Item::Write { key: X, value: 100 },
        Item::Write { key: Y, value: 50 },
    ];
    let deposit = [Item::Read(X), compute(X, ProcKind::Add, 25)];
    let hit = [Item::Read(Z), compute(Z, ProcKind::Add, 1)];
    assert!(rt; writes(&rt, rt.alloc(), &opening, &[], &[is(X, 100), is(Y, 50)])?);
    for (items, key, before, after) in [(deposit, X, 100, 125), (hit, Z, 0, 1), (hit, Z, 1, 2)] {
        let fetched = [(key, Value::Number(before))];
        assert!(rt; writes(&rt, rt.alloc(), &items, &fetched, &[is(key, after)])?);
    }
    Ok(())
}
