//! That growing goes on.
ghost use Rattle.mk_column.specs.ColumnByCode.{ColumnView};
ghost use Rattle.mk_column.specs.Growing.{HasGrown};

/// A column has grown from itself, and from what a column has grown from that it has grown from.
pub fn grows_through()
    ensures itself { (column : ColumnView) → HasGrown column column }
    ensures through { (first second third : ColumnView) → HasGrown first second → HasGrown second third → HasGrown first third }
{}
