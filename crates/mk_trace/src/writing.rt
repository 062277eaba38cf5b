//! The text of a run.
ghost use Rattle.std.specs.Prelude.{◌≡◌, Ok, IfOk};
ghost use Rattle.mk_trace.specs.Answers.{run_text};
ghost use Rattle.mk_trace_text.specs.Traces as spec;

use mk_kept::Run;
use mk_trace_parts::write_text;
use mk_txn::NoMemory;
use std::alloc::Global;

/// The trace of the run.
pub fn write_trace(alloc: Global, run: &Run) -> Result<Vec<u8>, NoMemory>
    ensures text { IfOk result (λ bytes. bytes.items ≡ spec.trace_text run.now) }
    // It is read back as the same run.
    ensures found { IfOk result (λ bytes. run_text bytes.items ≡ Ok run.now) }
{
    write_text(alloc, run)
}
