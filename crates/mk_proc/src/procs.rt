//! The procedures of the program's caller, each with the fact that it computes what its kind says.
ghost use Rattle.std.specs.Prelude.{◌≡◌, ◌≤◌, length};
ghost use Rattle.mk_proc.specs.Procedures.{proc_value, CanCompute, Computes};
ghost use Rattle.mk_proc.specs.declared.ProcKind.TheVariants.{Add, Sum, Max};

use crate::ProcKind;

/// What computes a value from the values that were read, at most 16, and an argument.
pub type Procedure = fn(&[u64], u64) -> u64;

/// A procedure of this kind.
#[derive(Drop)]
pub struct Proc {
    pub kind: ProcKind,
    procedure: Procedure,
    ghost callable: { CanCompute (pre procedure) },
    ghost computes: { Computes kind (post procedure) },
}

impl Proc {
    /// Keeps a procedure that computes the values of this kind.
    pub fn new(kind: ProcKind, procedure: Procedure) -> Proc
        requires callable { CanCompute (pre procedure) }
        requires computes { Computes kind (post procedure) }
        ensures { result.kind ≡ kind }
    {
        Proc { kind, procedure }
    }

    /// The value of its kind on these values, at most 16.
    pub fn call(&self, values: &[u64], arg: u64) -> u64
        requires { length values.now ≤ 16 }
        ensures { result ≡ proc_value self.now.kind values.now arg }
    {
        (self.procedure)(values, arg)
    }
}

/// A procedure of each kind.
#[derive(Drop)]
pub struct Procs {
    add: Proc,
    sum: Proc,
    max: Proc,
    ghost is_add: { add.kind ≡ Add },
    ghost is_sum: { sum.kind ≡ Sum },
    ghost is_max: { max.kind ≡ Max },
}

impl Procs {
    /// One procedure of each kind, in this order.
    pub fn new(add: Proc, sum: Proc, max: Proc) -> Procs
        requires add { add.kind ≡ Add }
        requires sum { sum.kind ≡ Sum }
        requires max { max.kind ≡ Max }
    {
        Procs { add, sum, max }
    }

    /// The value of this kind on these values, at most 16.
    pub fn call(&self, kind: ProcKind, values: &[u64], arg: u64) -> u64
        requires { length values.now ≤ 16 }
        ensures { result ≡ proc_value kind values.now arg }
    {
        match kind {
            ProcKind::Add => self.add.call(values, arg),
            ProcKind::Sum => self.sum.call(values, arg),
            ProcKind::Max => self.max.call(values, arg),
        }
    }
}
