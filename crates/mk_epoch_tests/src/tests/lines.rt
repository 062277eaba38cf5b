//! Lines in turn, each with its answer.
ghost use Rattle.std.specs.Prelude.{◌≡◌, ◌<◌, ◌≤◌, ◌/◌, length, IfOk};
ghost use Rattle.mk_quorum.specs.Sizes.{members};
ghost use Rattle.mk_epoch_tests.specs.Reached.{StandsReached, MayBeHanded};

use crate::tests::calling::{adopt, ask, enter, merge, promise, wipe};
use mk_epoch::Replicas;
use mk_epoch_calls::calls_lead_on;
use mk_io::MemWord;
use mk_merge::Keeping;
use mk_quorum::Size;
use mk_txn::Marks;
use mk_words::{Entry, GlobalAnswer, GlobalLine};
use std::alloc::Global;
use std::process::Abort;
use std::test::Fail;

// The epoch in range.
fn epoch_in(epoch: u32) -> Result<u32, Fail>
    ensures range { IfOk result (λ e. (1 ≤ e) × (e ≤ 1000)) }
    ensures same { IfOk result (λ e. e ≡ epoch) }
{
    if 1 <= epoch && epoch <= 1000 {
        Ok(epoch)
    } else {
        Err("no such epoch".into())
    }
}

// The replica in range.
fn replica_in(size: Size, replica: u32) -> Result<u32, Fail>
    ensures { IfOk result (λ r. r < members size) }
{
    if replica < size.n() {
        Ok(replica)
    } else {
        Err("no such replica".into())
    }
}

fn word_in(words: &mut [MemWord], replica: u32) -> Result<&mut MemWord, Fail> {
    match words.get_mut(replica as usize) {
        Some(word) => Ok(word),
        None => Err("no such word".into()),
    }
}

// Does the line; with a promise of a replica that never adopted an epoch these entries and marks are handed in.
fn do_line<B: Keeping>(
    size: Size,
    replicas: &mut Replicas<B>,
    words: &mut [MemWord],
    line: GlobalLine,
    entries: &[Entry],
    marks: &Marks,
) -> Result<GlobalAnswer, Fail>
    requires reached { StandsReached B.stands replicas.old }
    requires size { replicas.old.faults ≡ size }
    requires may { MayBeHanded entries.now }
    ensures reached { StandsReached B.stands replicas.new }
    ensures size { replicas.new.faults ≡ size }
{
    match line {
        GlobalLine::Wipe(replica) => Ok(wipe(replicas, replica_in(size, replica)?)),
        GlobalLine::Ask(epoch) => ask(replicas, epoch_in(epoch)?),
        GlobalLine::Promise { epoch, replica } => {
            let word = word_in(words, replica)?;
            let replica = replica_in(size, replica)?;
            promise(replicas, word, epoch_in(epoch)?, replica, entries, marks)
        }
        GlobalLine::Merge(epoch) => {
            let epoch = epoch_in(epoch)?;
            let leader = epoch % size.n();
            let word = word_in(words, leader)?;
            merge(replicas, word, epoch, leader)
        }
        GlobalLine::Adopt { epoch, replica } => {
            let word = word_in(words, replica)?;
            adopt(replicas, word, epoch_in(epoch)?, replica_in(size, replica)?)
        }
        GlobalLine::Enter(epoch) => enter(replicas, epoch_in(epoch)?),
    }
}

// The lines in turn, each with its answer, by replicas whose words fail at these sets, a list for each.
pub(crate) fn do_lines<B: Keeping>(
    rt: &impl Abort,
    alloc: Global,
    failing: &[&[u32]],
    entries: &[Entry],
    marks: &Marks,
    lines: &[(GlobalLine, GlobalAnswer)],
) -> Result<Replicas<B>, Fail>
    requires may { MayBeHanded entries.now }
    ensures { IfOk result (λ replicas. replicas.faults ≡ length failing.now / 2) }
{
    calls_lead_on::<B>();
    let Ok(faults) = u32::try_from(failing.len() / 2) else {
        return Err("a size".into());
    };
    let size = Size::new(faults).ok_or("a size")?;
    let mut replicas = Replicas::<B>::new(alloc, size)?;
    let mut words = Vec::new(alloc);
    for sets in failing {
        words.push(MemWord::new(alloc, sets)?)?;
    }
    for (line, answer) in lines {
        let given = do_line(size, &mut replicas, &mut words, *line, entries, marks)?;
        assert!(rt; given == *answer);
    }
    Ok(replicas)
}
