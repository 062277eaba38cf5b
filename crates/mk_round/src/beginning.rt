//! How a round begins in the drivers, and the drivers before the first round.
ghost use Rattle.std.specs.Prelude.{◌≡◌, length, IfOk, OnOk};
ghost use Rattle.mk_lists.specs.Among.{Each};
ghost use Rattle.mk_script.specs.Whole.{IsWhole};
ghost use Rattle.mk_round.specs.Begun.{AreFirst, MayBegin, HaveBegun};

use mk_column::NoOutlet;
use mk_driver::Driver;
use mk_script::Script;
use mk_txn::NoMemory;
use std::alloc::Global;

/// Every script keeps the limits of scripts.
pub(crate) fn keeps_limits(script: &Script)
    ensures { IsWhole script.now }
{
    let _size = script.size;
}

/// The drivers of so many columns before the first round.
pub(crate) fn first_drivers(
    alloc: Global,
    script: &Script,
    columns: u32,
) -> Result<Vec<Driver>, NoMemory>
    ensures { IfOk result (λ drivers. AreFirst script.now columns drivers.items) }
{
    let mut drivers = Vec::new(alloc);
    for column in 0..columns {
        drivers.push(Driver::new(alloc, script, column)?)?;
    }
    Ok(drivers)
}

/// Each driver's next round begins, which has this number.
pub(crate) fn begin_drivers(drivers: &mut Vec<Driver>, round: u32) -> Result<(), NoMemory>
    requires { Each (MayBegin round) drivers.old.items }
    ensures { OnOk result (HaveBegun drivers.old.items drivers.new.items) }
{
    for driver in drivers.iter_mut() {
        driver.begin_round(round)?;
    }
    Ok(())
}

/// So many outlets that tell nobody.
pub(crate) fn no_outlets(alloc: Global, count: usize) -> Result<Vec<NoOutlet>, NoMemory>
    ensures { IfOk result (λ outlets. length outlets.items ≡ count) }
{
    let mut outlets = Vec::new(alloc);
    for _outlet in 0..count {
        outlets.push(NoOutlet)?;
    }
    Ok(outlets)
}
