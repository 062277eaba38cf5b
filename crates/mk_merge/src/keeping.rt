//! What an epoch's base is kept as.
ghost use Rattle.std.specs.Prelude.{◌≡◌, true, false, List, Err, IfOk, IfErr};
ghost use Rattle.mk_words.specs.Bases.{BaseState, empty_base, kept_of};
ghost use Rattle.mk_words.specs.Rebuilding.{fits_base, NamesBelow};
ghost use Rattle.mk_merge_laws.specs.Lefts.{AreRebuilt};
ghost use Rattle.mk_words.specs.Promises.{PromiseState, ArePromises, can_merge};
ghost use Rattle.mk_words.specs.Merging.{merged};
ghost use Rattle.mk_merge.specs.Keepings.{Stand, counted};

use crate::joining::merge_listed;
use crate::{Base, MergeError, Promise};
use mk_cell::Cell;
use mk_quorum::Size;
use mk_trim::Kept;
use mk_txn::{NoMemory, Txn};
use std::alloc::Global;

/// A value that stands for bases: for each of them it tells what a replica and an epoch's leader have to know.
pub trait Keeping: Drop {
    /// The bases that the value stands for.
    ghost stands: { Self → BaseState → Type 0 };

    /// It stands for the base of epoch 0, which has no transactions, and all marks 0.
    fn empty(alloc: Global) -> Self
        ensures { stands result empty_base };

    /// The marks, and the outcomes that they do not cover.
    fn fates(&self) -> &Kept
        ensures { (base : BaseState) → stands self.now base → result.now ≡ kept_of base };

    /// Whether each read of the transaction is of a version not below the last committed write of its key, and each
    /// write not below the last committed read.
    fn fits(&self, txn: &Txn) -> bool
        ensures { (base : BaseState) → stands self.now base → result ≡ fits_base base txn.now };

    /// A value that stands for what this one stands for.
    fn copy(&self) -> Result<Self, NoMemory>
        ensures { IfOk result (λ made. (base : BaseState) → stands self.now base → stands made base) };

    /// The cells with which the keys below `keys` begin the epoch: the last committed write, the last committed read,
    /// and nothing pending. The base names no other key.
    fn cells(&self, keys: u32) -> Result<Vec<Cell>, NoMemory>
        requires { (base : BaseState) × stands self.now base × NamesBelow keys base }
        ensures { IfOk result (λ cells. (base : BaseState) → stands self.now base → AreRebuilt base keys cells.items) };

    /// The base of an epoch, made from promises. Of the leader's promise and the first f others those of the highest
    /// adopted epoch count: every transaction of their base and their entries gets its outcome, and every client the
    /// greatest of its marks. The replicas differ, and so do the attempts of one promise's entries; the bases of one
    /// epoch are one; equal numbers mean equal transactions, and other numbers have other stamps; an entry with an Ok
    /// vote fits its promise's base, whose marks do not cover it. `Short` with the number of promises comes exactly
    /// where there are fewer than f + 1, or the leader's is missing.
    fn merge(
        alloc: Global,
        size: Size,
        epoch: u32,
        promises: &[Promise<Self>],
    ) -> Result<Self, MergeError>
        requires { (states : List PromiseState) × Stand Self stands promises.now states × ArePromises states }
        ensures ok { IfOk result (λ made. (states : List PromiseState) → Stand Self stands promises.now states → ArePromises states → stands made (merged size epoch states)) }
        ensures short { (states : List PromiseState) → Stand Self stands promises.now states → can_merge size epoch states ≡ false → result ≡ Err (MergeError.Short (counted promises.now)) }
        ensures enough { (states : List PromiseState) → Stand Self stands promises.now states → can_merge size epoch states ≡ true → IfErr result (λ error. error ≡ MergeError.NoMemory) };
}

impl Keeping for Base {
    ghost stands = { λ base state. base ≡ state };

    fn empty(alloc: Global) -> Base {
        Base::new(alloc)
    }

    fn fates(&self) -> &Kept {
        self.kept()
    }

    fn fits(&self, txn: &Txn) -> bool {
        self.is_fit(txn)
    }

    fn copy(&self) -> Result<Base, NoMemory> {
        self.copied()
    }

    fn cells(&self, keys: u32) -> Result<Vec<Cell>, NoMemory> {
        self.rebuilt_cells(keys)
    }

    fn merge(
        alloc: Global,
        size: Size,
        epoch: u32,
        promises: &[Promise<Base>],
    ) -> Result<Base, MergeError> {
        merge_listed(alloc, size, epoch, promises)
    }
}
