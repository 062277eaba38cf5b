//! The base that an epoch's leader makes from promises, as a list.
ghost use Rattle.std.specs.Prelude.{◌≡◌, ◌≤◌, true, false, Err, map, length, IfOk, IfErr};
ghost use Rattle.mk_words.specs.Bases.{IsInIdOrder};
ghost use Rattle.mk_words.specs.Promises.{can_merge, ArePromises};
ghost use Rattle.mk_words.specs.Merging.{merged, merged_from};
ghost use Rattle.mk_merge_laws.specs.Adding.{with_fated, AreCounted};
ghost use Rattle.mk_merge.specs.Joining.{TakesAdded};
ghost use Rattle.mk_merge.specs.Keepings.{listed, counted as is_count};

use crate::choosing::counted;
use crate::merging::added;
use crate::{Base, Fated, MergeError, Promise};
use mk_quorum::Size;
use mk_txn::{NoMemory, id_precedes};
use std::alloc::Global;

// Whether the next to be taken is one that is added.
fn takes_added(list: &[Fated], at: usize, more: &[Fated], next: usize) -> bool
    requires list { at ≤ length list.now }
    requires more { next ≤ length more.now }
    ensures { TakesAdded list.now at more.now next result }
{
    if next == more.len() {
        return false;
    }
    if at == list.len() {
        return true;
    }
    !id_precedes(list[at].txn.id(), more[next].txn.id())
}

// Both lists as one, in order of number.
fn joined(alloc: Global, list: &[Fated], more: &[Fated]) -> Result<Vec<Fated>, NoMemory>
    requires { IsInIdOrder more.now }
    ensures { IfOk result (λ all. all.items ≡ with_fated more.now list.now) }
{
    let mut all = Vec::new(alloc);
    let mut at = 0;
    let mut next = 0;
    while at < list.len() || next < more.len() {
        if takes_added(list, at, more, next) {
            all.push(more[next].copy()?)?;
            next += 1;
        } else {
            all.push(list[at].copy()?)?;
            at += 1;
        }
    }
    Ok(all)
}

// The base of the promises that count.
fn merge_counting(
    alloc: Global,
    size: Size,
    epoch: u32,
    promises: &[&Promise<Base>],
) -> Result<Base, NoMemory>
    requires { AreCounted (map (λ p. listed p.now) promises.now) }
    ensures { IfOk result (λ base. base ≡ merged_from size epoch (map (λ p. listed p.now) promises.now)) }
{
    let Some(first) = promises.first() else {
        return Ok(Base::new(alloc));
    };
    let more = added(alloc, size, epoch, first.base.kept(), promises)?;
    let list = joined(alloc, first.base.list(), more.list.as_slice())?;
    Base::marked(alloc, list, &more.marks)
}

// The base of an epoch.
pub(crate) fn merge_listed(
    alloc: Global,
    size: Size,
    epoch: u32,
    promises: &[Promise<Base>],
) -> Result<Base, MergeError>
    requires { ArePromises (map listed promises.now) }
    ensures ok { IfOk result (λ base. base ≡ merged size epoch (map listed promises.now)) }
    ensures short { can_merge size epoch (map listed promises.now) ≡ false → result ≡ Err (MergeError.Short (is_count promises.now)) }
    ensures enough { can_merge size epoch (map listed promises.now) ≡ true → IfErr result (λ error. error ≡ MergeError.NoMemory) }
{
    let counting = match counted(alloc, size, epoch, promises) {
        Ok(counting) => counting,
        Err(error) => return Err(error),
    };
    let base = merge_counting(alloc, size, epoch, counting.as_slice())?;
    Ok(base)
}
