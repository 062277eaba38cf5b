//! What cells keep, and what their checks exclude.
ghost use Rattle.mk_words.specs.declared.Act.{Act as Asked};
ghost use Rattle.mk_words.specs.Cells.{CellState, CellFits, cell_after};
ghost use Rattle.mk_words.specs.Exclusions.{ReadAwaitsWriter, WriteAwaitsReader};

/// Pending stamps stay ascending, a write awaits a reader that was let in, and a read a writer.
pub fn exclusions_hold()
    ensures fits { (cell : CellState) (act : Asked) → CellFits cell → CellFits (cell_after cell act) }
    ensures write { WriteAwaitsReader }
    ensures read { ReadAwaitsWriter }
{}
