//! The promises that count.
ghost use Rattle.std.specs.Prelude.{◌≡◌, true, false, not, Err, ◌==◌, ◌++◌, map, filter, take, if◌then◌else◌, IfOk, IfErr, OnOk};
ghost use Rattle.std.specs.List.{list_any};
ghost use Rattle.mk_merge.specs.Keepings.{chosen_of, counting_of, highest_of, are_enough, counted as is_count};

use crate::{MergeError, Promise};
use mk_quorum::Size;
use mk_txn::NoMemory;
use std::alloc::Global;

// The leader's promises, or those of the others: so many of them, where there are.
fn add_some<'a, B>(
    found: &mut Vec<&'a Promise<B>>,
    promises: &'a [Promise<B>],
    leader: u32,
    leads: bool,
    count: u32,
) -> Result<(), NoMemory>
    ensures { OnOk result (map (λ p. p.now) found.new.items ≡ map (λ p. p.now) found.old.items ++ take count (filter (λ p. if leads then p.replica == leader else not (p.replica == leader)) promises.now)) }
{
    let mut room = count;
    for promise in promises {
        if room == 0 {
            return Ok(());
        }
        if (promise.replica == leader) != leads {
            continue;
        }
        found.push(promise)?;
        room -= 1;
    }
    Ok(())
}

// The leader's promise, and the first f others.
fn chosen<'a, B>(
    alloc: Global,
    size: Size,
    epoch: u32,
    promises: &'a [Promise<B>],
) -> Result<Vec<&'a Promise<B>>, NoMemory>
    ensures { IfOk result (λ found. map (λ p. p.now) found.items ≡ chosen_of size epoch promises.now) }
{
    let leader = epoch % size.n();
    let mut found = Vec::new(alloc);
    add_some(&mut found, promises, leader, true, 1)?;
    add_some(&mut found, promises, leader, false, size.f())?;
    Ok(found)
}

// The highest epoch that one of these promises has adopted.
fn highest<B>(promises: &[&Promise<B>]) -> u32
    ensures { result ≡ highest_of (map (λ p. p.now) promises.now) }
{
    let mut epoch = 0;
    for promise in promises {
        epoch = promise.adopted.max(epoch);
    }
    epoch
}

// Of the leader's promise and the first f others those of the highest adopted epoch.
fn counting<'a, B>(
    alloc: Global,
    size: Size,
    epoch: u32,
    promises: &'a [Promise<B>],
) -> Result<Vec<&'a Promise<B>>, NoMemory>
    ensures { IfOk result (λ found. map (λ p. p.now) found.items ≡ counting_of (chosen_of size epoch promises.now)) }
{
    let mut found = chosen(alloc, size, epoch, promises)?;
    let adopted = highest(found.as_slice());
    found.retain(|promise| promise.adopted == adopted);
    Ok(found)
}

// Whether one of the promises is the leader's.
fn is_led<B>(promises: &[Promise<B>], leader: u32) -> bool
    ensures { result ≡ list_any (λ p. p.replica == leader) promises.now }
{
    for promise in promises {
        if promise.replica == leader {
            return true;
        }
    }
    false
}

// Whether a majority has promised, and the leader has.
fn is_enough<B>(size: Size, epoch: u32, promises: &[Promise<B>]) -> bool
    ensures { result ≡ are_enough size epoch promises.now }
{
    size.majority() as usize <= promises.len() && is_led(promises, epoch % size.n())
}

/// The promises that count towards an epoch's base: of the leader's promise and the first f others those of the highest
/// adopted epoch. `Short` with the number of promises comes exactly where there are fewer than f + 1, or the leader's is
/// missing.
pub fn counted<'a, B>(
    alloc: Global,
    size: Size,
    epoch: u32,
    promises: &'a [Promise<B>],
) -> Result<Vec<&'a Promise<B>>, MergeError>
    ensures ok { IfOk result (λ found. map (λ p. p.now) found.items ≡ counting_of (chosen_of size epoch promises.now)) }
    ensures short { are_enough size epoch promises.now ≡ false → result ≡ Err (MergeError.Short (is_count promises.now)) }
    ensures enough { are_enough size epoch promises.now ≡ true → IfErr result (λ error. error ≡ MergeError.NoMemory) }
{
    if !is_enough(size, epoch, promises) {
        let count = promises.len().min(u32::MAX as usize);
        return Err(MergeError::Short(count as u32));
    }
    let found = counting(alloc, size, epoch, promises)?;
    Ok(found)
}
