//! The snapshot of a base that is made from promises.
ghost use Rattle.std.specs.Prelude.{◌≡◌, List, true, false, Err, map, IfOk, IfErr, OnOk};
ghost use Rattle.mk_words.specs.KeptOutcomes.{covered_by};
ghost use Rattle.mk_words.specs.Bases.{commits_in};
ghost use Rattle.mk_words.specs.Promises.{PromiseState, ArePromises, can_merge};
ghost use Rattle.mk_words.specs.Merging.{merged, merged_from};
ghost use Rattle.mk_merge_laws.specs.Adding.{AreCounted, put_fates};
ghost use Rattle.mk_merge.specs.Keepings.{Stand, counted as is_count};
ghost use Rattle.mk_snap.specs.Snapshots.{SnapState, SnapStands, AreAdded};

use crate::Snap;
use crate::lefts::add_commits;
use mk_merge::{Addition, Keeping, MergeError, Promise, added, counted};
use mk_quorum::Size;
use mk_trim::Kept;
use mk_txn::NoMemory;
use mk_words::Fated;
use std::alloc::Global;

// The outcomes of the list besides.
fn put_all(kept: &mut Kept, list: &[Fated]) -> Result<(), NoMemory>
    ensures { OnOk result (kept.new ≡ put_fates list.now kept.old) }
{
    for fated in list {
        kept.put(fated.txn.id(), fated.outcome)?;
    }
    Ok(())
}

impl Snap {
    // The outcomes that the marks do not cover, and the marks.
    pub(crate) fn kept(&self) -> &Kept
        ensures { result.now ≡ self.now.kept }
    {
        &self.kept
    }

    // The snapshot with what a merge adds to its base.
    fn with(&self, more: &Addition) -> Result<Snap, NoMemory>
        ensures kept { IfOk result (λ snap. snap.kept ≡ covered_by more.now.marks (put_fates more.now.list.items self.now.kept)) }
        ensures lefts { IfOk result (λ snap. AreAdded (commits_in more.now.list.items) self.now.lefts snap.lefts) }
    {
        let mut kept = self.kept.copy()?;
        put_all(&mut kept, more.list.as_slice())?;
        kept.cover(&more.marks)?;
        let mut lefts = self.lefts.clone()?;
        add_commits(&mut lefts, more.list.as_slice())?;
        Ok(Snap {
            alloc: self.alloc,
            kept,
            lefts,
        })
    }
}

// The snapshot of the base of the promises that count.
fn merge_counting(
    alloc: Global,
    size: Size,
    epoch: u32,
    promises: &[&Promise<Snap>],
) -> Result<Snap, NoMemory>
    requires { (states : List PromiseState) × Stand SnapState SnapStands (map (λ p. p.now) promises.now) states × AreCounted states }
    ensures { IfOk result (λ snap. (states : List PromiseState) → Stand SnapState SnapStands (map (λ p. p.now) promises.now) states → AreCounted states → SnapStands snap (merged_from size epoch states)) }
{
    let Some(first) = promises.first() else {
        return Ok(Snap::empty(alloc));
    };
    let more = added(alloc, size, epoch, first.base.kept(), promises)?;
    first.base.with(&more)
}

// The snapshot of the base of an epoch.
pub(crate) fn merge_snaps(
    alloc: Global,
    size: Size,
    epoch: u32,
    promises: &[Promise<Snap>],
) -> Result<Snap, MergeError>
    requires { (states : List PromiseState) × Stand SnapState SnapStands promises.now states × ArePromises states }
    ensures ok { IfOk result (λ snap. (states : List PromiseState) → Stand SnapState SnapStands promises.now states → ArePromises states → SnapStands snap (merged size epoch states)) }
    ensures short { (states : List PromiseState) → Stand SnapState SnapStands promises.now states → can_merge size epoch states ≡ false → result ≡ Err (MergeError.Short (is_count promises.now)) }
    ensures enough { (states : List PromiseState) → Stand SnapState SnapStands promises.now states → can_merge size epoch states ≡ true → IfErr result (λ error. error ≡ MergeError.NoMemory) }
{
    let counting = match counted(alloc, size, epoch, promises) {
        Ok(counting) => counting,
        Err(error) => return Err(error),
    };
    let snap = merge_counting(alloc, size, epoch, counting.as_slice())?;
    Ok(snap)
}
