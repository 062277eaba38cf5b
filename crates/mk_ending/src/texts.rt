//! The text of a call, written to its sink.
ghost use Rattle.std.specs.Prelude.{◌≡◌, IfErr, OnOk};
ghost use Rattle.std.specs.Io.KnownBytes.{Appends};
ghost use Rattle.mk_io.specs.Faults.{HasRisen};
ghost use Rattle.mk_io.specs.Wholes.{AppendsPart};

use crate::Why;
use mk_io::{Sink, write_whole};

/// Writes the whole text. It takes no memory.
pub fn write_text<K: Sink>(sink: &mut K, text: &str) -> Result<(), Why>
    ensures ok { OnOk result (Appends (K.held sink.old) (K.held sink.new) text.now) }
    ensures err { IfErr result (λ why. (why ≡ Why.SinkFault) × HasRisen (K.faults sink.old) (K.faults sink.new) × AppendsPart (K.held sink.old) (K.held sink.new) text.now) }
{
    Ok(write_whole(sink, text.as_bytes())?)
}
