//! The three procedures as functions, for callers that need no others.
ghost use Rattle.std.specs.Prelude.{◌≡◌};
ghost use Rattle.mk_proc.specs.Procedures.{proc_value};
ghost use Rattle.mk_proc.specs.declared.ProcKind.TheVariants.{Add, Sum, Max};

/// The first value and the argument together, at most 2^64 - 1; the argument where no value is there.
pub fn add(values: &[u64], arg: u64) -> u64
    ensures { result ≡ proc_value Add values.now arg }
{
    values
        .first()
        .map_or(arg, |first| first.saturating_add(arg))
}

/// All values and the argument together, at most 2^64 - 1.
pub fn sum(values: &[u64], arg: u64) -> u64
    ensures { result ≡ proc_value Sum values.now arg }
{
    let mut total = arg;
    for value in values {
        total = total.saturating_add(*value);
    }
    total
}

/// The greatest of the values and the argument.
pub fn max(values: &[u64], arg: u64) -> u64
    ensures { result ≡ proc_value Max values.now arg }
{
    let mut greatest = arg;
    for value in values {
        greatest = greatest.max(*value);
    }
    greatest
}
