//! How lines, words, numbers and names are spelled in bytes, and the faults of a line.
#![tactic(auto)]

ghost use Rattle.std.specs.Prelude.{◌≡◌, ℕ, List, Result};
ghost use Rattle.mk_spelling.specs.declared.fault.TextFault.{TextFault as Fault};
ghost use Rattle.mk_spelling.specs.Lines.{read_text};
ghost use Rattle.mk_spelling.specs.Pieces.{started, fed, finished};

mod fault;

pub use fault::TextFault;

/// A text that comes in pieces gives what the whole text gives, wherever it is cut.
#[tactic(auto, using(crate::proofs::PieceLaws::finished_is))]
pub fn pieces_are_read_as_one<S>()
    ensures { (line : S → List ℕ → Result S Fault) (close : S → Result S Fault) (s : S) (bytes : List ℕ) → finished close (fed line (started s) bytes) ≡ read_text line close s bytes }
{}
