use mk_quorum::{ReplicaSet, Size, count_accepts, fill, sizes_fit};
use std::test::Fail;

#[test]
fn sizes_of_one_to_three_faults(rt: HostRuntime) -> Result<(), Fail> {
    sizes_fit();
    assert!(rt; Size::new(0).is_none() && Size::new(4).is_none());
    for (f, sizes) in [
        (1, [3, 2, 3, 2, 1]),
        (2, [5, 3, 4, 2, 2]),
        (3, [7, 4, 6, 3, 2]),
    ] {
        let size = Size::new(f).ok_or("a size")?;
        assert!(rt; size.f() == f);
        assert!(rt;
            [
                size.n(),
                size.majority(),
                size.fast(),
                size.hint(),
                size.block()
            ] == sizes
        );
    }
    Ok(())
}

#[test]
fn a_replica_counts_once(rt: HostRuntime) {
    let mut set = ReplicaSet::new();
    assert!(rt; set.is_empty());
    for replica in [6, 2, 6] {
        set.insert(replica);
    }
    assert!(rt; set.len() == 2);
    assert!(rt; set.contains(2) && set.contains(6) && !set.contains(3) && !set.contains(7));
}

#[test]
fn what_a_replica_gives_first_stays(rt: HostRuntime) {
    let mut slots = [None; 7];
    for (replica, given) in [(1, true), (4, true), (1, false)] {
        fill(&mut slots, replica, given);
    }
    assert!(rt; slots[1] == Some(true));
    assert!(rt; count_accepts(&slots) == 2);
}
