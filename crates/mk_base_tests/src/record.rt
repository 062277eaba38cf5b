use mk_record::{CoreRecord, RecordError, copies};
use mk_txn::{Accepted, Outcome, Stamp, Txn, TxnId, Vote};
use std::alloc::Global;
use std::test::Fail;

const ATTEMPT: TxnId = TxnId { client: 0, seq: 1 };

const STAMP: Stamp = Stamp {
    time: 10,
    client: 0,
};

fn id(client: u32, seq: u32) -> TxnId {
    TxnId { client, seq }
}

fn open(alloc: Global, record: &mut CoreRecord, id: TxnId) -> Result<(), Fail> {
    if record.find(id).is_some() {
        return Err("an entry is there".into());
    }
    let txn = Txn::new(alloc, id, STAMP, &[], &[])?;
    record.open_entry(&txn)?;
    Ok(())
}

fn commit(record: &mut CoreRecord, id: TxnId) -> Result<(), Fail> {
    if record.find(id).is_none() {
        return Err("no entry".into());
    }
    if record.finish(id, Outcome::Commit).is_err() {
        return Err("a final entry".into());
    }
    Ok(())
}

#[test]
fn each_attempt_has_its_own_entry(rt: HostRuntime) -> Result<(), Fail> {
    let alloc = rt.alloc();
    let mut record = CoreRecord::new(alloc);
    for (client, seq) in [(1, 2), (0, 1), (1, 1)] {
        open(alloc, &mut record, id(client, seq))?;
    }
    commit(&mut record, id(0, 1))?;
    commit(&mut record, id(1, 1))?;
    let kept = copies(alloc, record.entries())?;
    assert!(rt; kept.len() == 3 && kept[2].txn.id() == id(1, 1));
    for (client, seq, last) in [
        (1, 2, None),
        (0, 1, Some(Outcome::Commit)),
        (1, 1, Some(Outcome::Commit)),
    ] {
        let entry = record.find(id(client, seq)).expect(&rt, "an entry");
        assert!(rt; entry.txn.id() == id(client, seq) && entry.last == last);
    }
    assert!(rt; record.find(id(2, 1)).is_none());
    Ok(())
}

#[test]
fn a_promised_view_refuses_a_lower_one(rt: HostRuntime) -> Result<(), Fail> {
    let alloc = rt.alloc();
    let txn = Txn::new(alloc, ATTEMPT, STAMP, &[], &[])?;
    let mut record = CoreRecord::new(alloc);
    record.open_entry(&txn)?;
    record.set_vote(ATTEMPT, Vote::Ok);
    assert!(rt; record.promise(ATTEMPT, 1) == Ok(()));
    assert!(rt; record.accept(ATTEMPT, 0, Outcome::Commit) == Err(RecordError::OldView(1)));
    let entry = record.find(ATTEMPT).expect(&rt, "an entry").copy()?;
    assert!(rt; entry.view == 1);
    assert!(rt; entry.vote == Some(Vote::Ok));
    assert!(rt; entry.accepted.is_none());
    Ok(())
}

#[test]
fn a_final_entry_refuses_all(rt: HostRuntime) -> Result<(), Fail> {
    let alloc = rt.alloc();
    let txn = Txn::new(alloc, ATTEMPT, STAMP, &[], &[])?;
    let mut record = CoreRecord::new(alloc);
    record.open_entry(&txn)?;
    assert!(rt; record.accept(ATTEMPT, 1, Outcome::Commit) == Ok(()));
    assert!(rt; record.finish(ATTEMPT, Outcome::Commit) == Ok(()));
    assert!(rt; record.promise(ATTEMPT, 2) == Err(RecordError::Finished(Outcome::Commit)));
    assert!(rt; record.finish(ATTEMPT, Outcome::Commit) == Err(Outcome::Commit));
    let accepted = Accepted {
        view: 1,
        outcome: Outcome::Commit,
    };
    let entry = record.find(ATTEMPT).expect(&rt, "an entry");
    assert!(rt; entry.accepted == Some(accepted));
    assert!(rt; entry.last == Some(Outcome::Commit));
    assert!(rt; record.entries().len() == 1);
    let kept = copies(alloc, record.entries())?;
    record.clear();
    assert!(rt; record.entries().len() == 0);
    assert!(rt; kept.len() == 1);
    assert!(rt; kept[0].last == Some(Outcome::Commit));
    Ok(())
}
