//! That columns and drivers may go to other threads, and rules may be shared.
//!
//! The function does nothing: what it promises is the law. The prover does not find it by itself for types so deep. Whoever
//! hands columns and drivers to threads cites the rules of `proofs/Sending`.
#![tactic(auto)]

ghost use Rattle.std.specs.Thread.{IsSend, IsSync};
ghost use Rattle.mk_column.specs.contracts.column.Column.{the_row as column_row};
ghost use Rattle.mk_driver.specs.contracts.Driver.{the_row as driver_row};
ghost use Rattle.mk_faults.specs.contracts.rules.Rules.{the_row as rules_row};

pub fn columns_cross()
    ensures column { IsSend column_row }
    ensures driver { IsSend driver_row }
    ensures rules { IsSync rules_row }
{}
