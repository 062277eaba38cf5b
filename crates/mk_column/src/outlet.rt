//! Whom a column's worker tells of it.
ghost use Rattle.std.specs.Prelude.{OnOk};
ghost use Rattle.mk_column.specs.ColumnByCode.{ColumnView};
ghost use Rattle.mk_column.specs.Growing.{HasGrown};

use crate::column::Column;
use mk_txn::NoMemory;
use std::sync::Wait;

/// Who is told of a column while its round goes on, and at the round's end.
pub trait Outlet {
    /// The outlet may be told of this column.
    ghost suits: { Self → ColumnView → Type 0 };

    /// What of an outlet stays the same while it is told.
    ghost kept: { Self → Self → Type 0 };

    /// The column has gone on.
    fn tell<R: Wait>(&mut self, rt: &R, column: &Column) -> Result<(), NoMemory>
        requires { suits self.old column.now }
        ensures suits { OnOk result (suits self.new column.now) }
        ensures kept { OnOk result (kept self.old self.new) };

    /// The round of the column is at its end.
    fn round_end<R: Wait>(&mut self, rt: &R, column: &Column) -> Result<(), NoMemory>
        requires { suits self.old column.now }
        ensures suits { OnOk result (suits self.new column.now) }
        ensures kept { OnOk result (kept self.old self.new) };

    /// An outlet that suits a column suits every one that has grown from it.
    ghost grows: { (outlet : Self) (before after : ColumnView) → HasGrown before after → suits outlet before → suits outlet after };

    ghost kept_itself: { (outlet : Self) → kept outlet outlet };

    ghost kept_through: { (first second third : Self) → kept first second → kept second third → kept first third };
}

/// Nobody is told.
#[derive(Clone, Copy)]
pub struct NoOutlet;

impl Outlet for NoOutlet {
    ghost suits = { λ _ _. Unit {0} };

    ghost kept = { λ _ _. Unit {0} };

    ghost grows = { λ _ _ _ _ _. tt };

    ghost kept_itself = { λ _. tt };

    ghost kept_through = { λ _ _ _ _ _. tt };

    fn tell<R: Wait>(&mut self, _rt: &R, _column: &Column) -> Result<(), NoMemory> {
        Ok(())
    }

    fn round_end<R: Wait>(&mut self, _rt: &R, _column: &Column) -> Result<(), NoMemory> {
        Ok(())
    }
}
