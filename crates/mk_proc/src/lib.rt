//! The items of a transaction, and the procedures that compute its writes.
#![tactic(auto)]

mod procs;
mod standard;

pub use procs::{Proc, Procedure, Procs};
pub use standard::{add, max, sum};

/// What a computed write does with the values that its attempt read.
#[derive(Clone, Copy, PartialEq, Eq)]
pub enum ProcKind {
    /// The first value and the argument together.
    Add,
    /// All values and the argument together.
    Sum,
    /// The greatest of the values and the argument.
    Max,
}

/// One item of a transaction, in order of mention.
#[derive(Clone, Copy, PartialEq, Eq)]
pub enum Item {
    Read(u32),
    Write { key: u32, value: u64 },
    Compute { key: u32, proc: ProcKind, arg: u64 },
    /// A write of an absent value.
    Delete(u32),
}

impl Item {
    ghost use Rattle.std.specs.Prelude.{◌≡◌};
    ghost use Rattle.mk_proc.specs.Items.{key_of, is_read};

    /// The key that it reads or writes.
    pub fn key(&self) -> u32
        ensures { result ≡ key_of self.now }
    {
        match self {
            Item::Read(key) => *key,
            Item::Write { key, value: _ } => *key,
            Item::Compute {
                key,
                proc: _,
                arg: _,
            } => *key,
            Item::Delete(key) => *key,
        }
    }

    /// Whether it reads.
    pub fn is_read(&self) -> bool
        ensures { result ≡ is_read self.now }
    {
        matches!(self, Item::Read(_))
    }
}
