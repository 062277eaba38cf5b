//! A snapshot as what an epoch's base is kept as.
ghost use Rattle.std.specs.Prelude.{◌≡◌, ℕ, ◌<◌, not, length, slice_index_or, true, false, List, Err, IfOk, IfErr};
ghost use Rattle.std.specs.List.{list_all};
ghost use Rattle.mk_txn.specs.Stamps.{is_before};
ghost use Rattle.mk_words.specs.Cells.{CellView};
ghost use Rattle.mk_words.specs.Rebuilding.{fits_cells};
ghost use Rattle.mk_merge_laws.specs.Lefts.{cell_left};
ghost use Rattle.mk_snap.specs.Snapshots.{SnapStands, AreCells, left_at};

use crate::Snap;
use crate::lefts::left;
use crate::merging::merge_snaps;
use mk_cell::Cell;
use mk_merge::{Keeping, MergeError, Promise};
use mk_quorum::Size;
use mk_trim::Kept;
use mk_txn::{NoMemory, Txn, precedes};
use std::alloc::Global;
use std::collections::BTreeMap;

impl Snap {
    // Whether each read is of a version not below the last write of its key.
    fn reads_fit(&self, txn: &Txn) -> bool
        ensures { result ≡ list_all (λ item. not (is_before item.version (left_at item.key self.now.lefts).latest.version)) txn.now.reads }
    {
        txn.reads().iter().all(|item| !precedes(item.version, left(&self.lefts, item.key).wts()))
    }

    // Whether no write is below the last read of its key.
    fn writes_fit(&self, txn: &Txn) -> bool
        ensures { result ≡ list_all (λ item. not (is_before txn.now.stamp (left_at item.key self.now.lefts).rts)) txn.now.writes }
    {
        let stamp = txn.stamp();
        txn.writes()
            .iter()
            .all(|item| !precedes(stamp, left(&self.lefts, item.key).rts()))
    }

    // Whether the transaction fits the cells.
    fn is_fit(&self, txn: &Txn) -> bool
        ensures { result ≡ fits_cells (λ key. cell_left (left_at key self.now.lefts)) txn.now }
    {
        self.reads_fit(txn) && self.writes_fit(txn)
    }

    fn copied(&self) -> Result<Snap, NoMemory>
        ensures { IfOk result (λ snap. snap ≡ self.now) }
    {
        Ok(Snap {
            alloc: self.alloc,
            kept: self.kept.copy()?,
            lefts: self.lefts.clone()?,
        })
    }

    // The cells of the keys below `keys`.
    fn made_cells(&self, keys: u32) -> Result<Vec<Cell>, NoMemory>
        ensures { IfOk result (λ cells. AreCells self.now.lefts keys cells.items) }
    {
        let alloc = self.alloc;
        let mut cells = Vec::new(alloc);
        for key in 0..keys {
            cells.push(left(&self.lefts, key).cell(alloc))?;
        }
        Ok(cells)
    }
}

impl Keeping for Snap {
    ghost stands = { SnapStands };

    fn empty(alloc: Global) -> Snap {
        Snap {
            alloc,
            kept: Kept::new(alloc),
            lefts: BTreeMap::new(alloc),
        }
    }

    fn fates(&self) -> &Kept {
        self.kept()
    }

    fn fits(&self, txn: &Txn) -> bool {
        self.is_fit(txn)
    }

    fn copy(&self) -> Result<Snap, NoMemory> {
        self.copied()
    }

    fn cells(&self, keys: u32) -> Result<Vec<Cell>, NoMemory> {
        self.made_cells(keys)
    }

    fn merge(
        alloc: Global,
        size: Size,
        epoch: u32,
        promises: &[Promise<Snap>],
    ) -> Result<Snap, MergeError> {
        merge_snaps(alloc, size, epoch, promises)
    }
}
