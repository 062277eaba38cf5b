use mk_proc::{Item, Proc, ProcKind, Procs, add, max, sum};

#[test]
fn a_procedure_of_each_kind_answers_its_value(rt: HostRuntime) {
    let procs = Procs::new(
        Proc::new(ProcKind::Add, add),
        Proc::new(ProcKind::Sum, sum),
        Proc::new(ProcKind::Max, max),
    );
    assert!(rt; procs.call(ProcKind::Add, &[], 7) == 7);
    assert!(rt; procs.call(ProcKind::Sum, &[u64::MAX, 1], 0) == u64::MAX);
    assert!(rt; procs.call(ProcKind::Max, &[3, 9], 4) == 9);
}

#[test]
fn an_item_has_a_key(rt: HostRuntime) {
    let items = [
        Item::Read(1),
        Item::Write { key: 2, value: 9 },
        Item::Compute {
            key: 3,
            proc: ProcKind::Add,
            arg: 9,
        },
        Item::Delete(4),
    ];
    for (item, key) in items.iter().zip(1..5) {
        assert!(rt; item.key() == key && item.is_read() == (key == 1));
    }
}
