use mk_trim::{Kept, Settled};
use mk_txn::{Cause, Known, Marks, NoMemory, Outcome, TxnId};

const BY_EPOCH: Outcome = Outcome::Abort(Cause::Epoch(1));

fn id(client: u32, seq: u32) -> TxnId {
    TxnId { client, seq }
}

#[test]
fn a_mark_waits_for_the_first_open_attempt(rt: HostRuntime) -> Result<(), NoMemory> {
    let mut settled = Settled::new(rt.alloc());
    for (seq, mark) in [(2, 0), (4, 0), (1, 2), (3, 4), (3, 4)] {
        settled.settle(id(1, seq))?;
        assert!(rt; settled.mark(1) == mark);
    }
    assert!(rt; settled.mark(2) == 0);
    Ok(())
}

#[test]
fn covered_outcomes_are_forgotten(rt: HostRuntime) -> Result<(), NoMemory> {
    let alloc = rt.alloc();
    let mut kept = Kept::new(alloc);
    for (client, seq, outcome) in [
        (2, 1, BY_EPOCH),
        (1, 1, Outcome::Commit),
        (1, 2, Outcome::Commit),
        (1, 2, BY_EPOCH),
    ] {
        kept.put(id(client, seq), outcome)?;
    }
    let mut marks = Marks::new(alloc);
    marks.raise(1, 1)?;
    kept.cover(&marks)?;
    let kept = kept.copy()?;
    for (seq, known) in [
        (1, Known::Forgotten),
        (2, Known::Outcome(Outcome::Commit)),
        (3, Known::Absent),
    ] {
        assert!(rt; kept.fate(id(1, seq)) == known);
    }
    assert!(rt; (kept.commits(), kept.aborts(), kept.marks().get(1)) == (1, 1, 1));
    assert!(rt; kept.list() == [(id(1, 2), Outcome::Commit), (id(2, 1), BY_EPOCH)].as_slice());
    Ok(())
}
