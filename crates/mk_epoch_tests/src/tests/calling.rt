//! Calls on the epoch machine, each of which leads on to a state that lines lead to.
ghost use Rattle.std.specs.Prelude.{◌≡◌, ℕ, ◌<◌, ◌≤◌};
ghost use Rattle.mk_quorum.specs.Sizes.{members};
ghost use Rattle.mk_words.specs.Promises.{leader_of};
ghost use Rattle.mk_epoch_tests.specs.Reached.{StandsReached, MayBeHanded};

use crate::tests::handing::handed_by;
use mk_epoch::{EpochError, Replicas};
use mk_epoch_calls::calls_lead_on;
use mk_io::{EpochWord, MemWord};
use mk_merge::Keeping;
use mk_txn::Marks;
use mk_words::{Entry, GlobalAnswer};
use std::test::Fail;

// The answer of a line that is refused so.
fn refusal(error: EpochError) -> Result<GlobalAnswer, Fail> {
    match error {
        EpochError::Unasked => Ok(GlobalAnswer::Unasked),
        EpochError::Unmade => Ok(GlobalAnswer::Unmade),
        EpochError::Lacking => Ok(GlobalAnswer::Lacking),
        EpochError::Old(word) => Ok(GlobalAnswer::Old(word)),
        EpochError::WordFault => Ok(GlobalAnswer::WordFault),
        EpochError::Short(count) => Ok(GlobalAnswer::Short(count)),
        EpochError::NoMemory => Err("no memory".into()),
    }
}

fn answer_of(called: Result<(), EpochError>) -> Result<GlobalAnswer, Fail> {
    match called {
        Ok(()) => Ok(GlobalAnswer::Ok),
        Err(error) => refusal(error),
    }
}

pub(crate) fn promise<B: Keeping>(
    replicas: &mut Replicas<B>,
    word: &mut MemWord,
    epoch: u32,
    replica: u32,
    entries: &[Entry],
    marks: &Marks,
) -> Result<GlobalAnswer, Fail>
    requires reached { StandsReached B.stands replicas.old }
    requires there { replica < members replicas.old.faults }
    requires range { (1 ≤ epoch) × (epoch ≤ 1000) }
    requires may { MayBeHanded entries.now }
    ensures reached { StandsReached B.stands replicas.new }
    ensures size { replicas.new.faults ≡ replicas.old.faults }
{
    calls_lead_on::<B>();
    if word.get() != replicas.word(replica) {
        return Err("another word".into());
    }
    let handed = handed_by(replicas, replica, entries)?;
    answer_of(replicas.promise(epoch, replica, handed, marks, word))
}

pub(crate) fn merge<B: Keeping>(
    replicas: &mut Replicas<B>,
    word: &MemWord,
    epoch: u32,
    leader: u32,
) -> Result<GlobalAnswer, Fail>
    requires reached { StandsReached B.stands replicas.old }
    requires leader { leader ≡ leader_of replicas.old.faults epoch }
    requires there { leader < members replicas.old.faults }
    requires range { (1 ≤ epoch) × (epoch ≤ 1000) }
    ensures reached { StandsReached B.stands replicas.new }
    ensures size { replicas.new.faults ≡ replicas.old.faults }
{
    calls_lead_on::<B>();
    if word.get() != replicas.word(leader) {
        return Err("another word".into());
    }
    match replicas.merge(epoch, word) {
        Ok((commits, aborts)) => Ok(GlobalAnswer::Counts { commits, aborts }),
        Err(error) => refusal(error),
    }
}

pub(crate) fn adopt<B: Keeping>(
    replicas: &mut Replicas<B>,
    word: &mut MemWord,
    epoch: u32,
    replica: u32,
) -> Result<GlobalAnswer, Fail>
    requires reached { StandsReached B.stands replicas.old }
    requires there { replica < members replicas.old.faults }
    requires range { (1 ≤ epoch) × (epoch ≤ 1000) }
    ensures reached { StandsReached B.stands replicas.new }
    ensures size { replicas.new.faults ≡ replicas.old.faults }
{
    calls_lead_on::<B>();
    if word.get() != replicas.word(replica) {
        return Err("another word".into());
    }
    answer_of(replicas.adopt(epoch, replica, word))
}

pub(crate) fn enter<B: Keeping>(
    replicas: &mut Replicas<B>,
    epoch: u32,
) -> Result<GlobalAnswer, Fail>
    requires reached { StandsReached B.stands replicas.old }
    requires range { (1 ≤ epoch) × (epoch ≤ 1000) }
    ensures reached { StandsReached B.stands replicas.new }
    ensures size { replicas.new.faults ≡ replicas.old.faults }
{
    calls_lead_on::<B>();
    match replicas.enter(epoch) {
        Ok(count) => Ok(GlobalAnswer::Entered(count)),
        Err(error) => refusal(error),
    }
}

pub(crate) fn ask<B: Keeping>(replicas: &mut Replicas<B>, epoch: u32) -> Result<GlobalAnswer, Fail>
    requires reached { StandsReached B.stands replicas.old }
    requires range { (1 ≤ epoch) × (epoch ≤ 1000) }
    ensures reached { StandsReached B.stands replicas.new }
    ensures size { replicas.new.faults ≡ replicas.old.faults }
{
    calls_lead_on::<B>();
    answer_of(replicas.ask(epoch))
}

pub(crate) fn wipe<B: Keeping>(replicas: &mut Replicas<B>, replica: u32) -> GlobalAnswer
    requires reached { StandsReached B.stands replicas.old }
    requires there { replica < members replicas.old.faults }
    ensures reached { StandsReached B.stands replicas.new }
    ensures size { replicas.new.faults ≡ replicas.old.faults }
{
    calls_lead_on::<B>();
    replicas.wipe(replica);
    GlobalAnswer::Ok
}
