ghost use Rattle.std.specs.Prelude.{◌≡◌, [], IfOk};

use mk_follow::{Follower, PickRule, Subscription, Taken};
use mk_txn::{Stamp, Txn, TxnError, TxnId, Value, WriteItem};
use std::alloc::Global;
use std::test::Fail;

const NOTHING: (Stamp, Value) = (Stamp { time: 0, client: 0 }, Value::Number(0));

fn at(time: u64, client: u32) -> Stamp
    ensures { result ≡ record { time = time; client = client } }
{
    Stamp { time, client }
}

// An attempt of the stamp's client that reads nothing.
fn commit(alloc: Global, seq: u32, stamp: Stamp, writes: &[WriteItem]) -> Result<Txn, TxnError>
    ensures { IfOk result (λ txn. txn ≡ record { id = record { client = stamp.client; seq = seq }; stamp = stamp; reads = []; writes = writes.now }) }
{
    let id = TxnId {
        client: stamp.client,
        seq,
    };
    Txn::new(alloc, id, stamp, &[], writes)
}

fn write(key: u32, value: u64) -> WriteItem
    ensures { result.key ≡ key }
{
    WriteItem {
        key,
        value: Value::Number(value),
    }
}

#[test]
fn a_closure_picks(rt: HostRuntime) -> Result<(), Fail> {
    let subscription = Subscription::new(PickRule::Below(1), |key| key < 1);
    assert!(rt; subscription.picks(0) && !subscription.picks(1));
    Ok(())
}

#[test]
fn two_columns(rt: HostRuntime) -> Result<(), Fail> {
    let alloc = rt.alloc();
    let subscription = Subscription::new(PickRule::All, |_| true);
    let mut follower = Follower::new(alloc, 2, subscription)?;
    let txn = commit(alloc, 1, at(10, 1), &[write(0, 5)])?;
    let again = txn.copy()?;
    assert!(rt; follower.take_commit(0, txn)? == Taken::New);
    follower.take_mark(0, at(10, 1), 1)?;
    assert!(rt; follower.watermark() == at(0, 0));
    assert!(rt; follower.get(0) == Some(NOTHING));
    assert!(rt; follower.behind() == 1);
    follower.take_mark(1, at(20, 2), 0)?;
    assert!(rt; follower.watermark() == at(10, 1));
    assert!(rt; follower.get(0) == Some((at(10, 1), Value::Number(5))));
    assert!(rt; follower.take_commit(0, again)? == Taken::Again);
    assert!(rt; follower.watermark() == at(10, 1));
    assert!(rt; follower.get(0) == Some((at(10, 1), Value::Number(5))));
    assert!(rt; follower.behind() == 0);
    Ok(())
}

#[test]
fn one_column(rt: HostRuntime) -> Result<(), Fail> {
    let alloc = rt.alloc();
    let subscription = Subscription::new(PickRule::Below(1), |key| key < 1);
    let mut follower = Follower::new(alloc, 1, subscription)?;
    let late = commit(alloc, 2, at(30, 1), &[write(0, 2), write(1, 2)])?;
    let early = commit(alloc, 1, at(20, 1), &[write(0, 1)])?;
    follower.take_mark(0, at(30, 1), 2)?;
    assert!(rt; follower.watermark() == at(0, 0));
    assert!(rt; follower.take_commit(0, late)? == Taken::New);
    assert!(rt; follower.watermark() == at(0, 0));
    assert!(rt; follower.take_commit(0, early)? == Taken::New);
    assert!(rt; follower.watermark() == at(30, 1));
    assert!(rt; follower.get(0) == Some((at(30, 1), Value::Number(2))));
    assert!(rt; follower.get(1) == None);
    Ok(())
}
