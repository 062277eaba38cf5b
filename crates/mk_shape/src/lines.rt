//! The ranges of a global line and its answer in a run of a head.
ghost use Rattle.std.specs.Prelude.{◌≡◌, List, []};
ghost use Rattle.mk_history.specs.declared.RoundLog.{RoundLog};
ghost use Rattle.mk_history.specs.Shape as shape;
ghost use Rattle.mk_kept.specs.Heads.{history};
ghost use Rattle.mk_words.specs.Lines as spec;

use mk_kept::{GlobalAnswer, GlobalEntry, GlobalLine, Head};

/// Whether a line can name the epoch, 1 to 1000.
fn is_epoch(epoch: u32) -> bool
    ensures { result ≡ spec.is_epoch epoch }
{
    epoch >= 1 && epoch <= 1000
}

/// Whether the line's replica is one of `replicas`, and its epoch one that a line can name.
fn in_range(replicas: u32, line: GlobalLine) -> bool
    ensures { result ≡ spec.line_fits replicas line }
{
    match line {
        GlobalLine::Wipe(replica) => replica < replicas,
        GlobalLine::Promise { epoch, replica } | GlobalLine::Adopt { epoch, replica } => {
            is_epoch(epoch) && replica < replicas
        }
        GlobalLine::Ask(epoch) | GlobalLine::Merge(epoch) | GlobalLine::Enter(epoch) => {
            is_epoch(epoch)
        }
    }
}

/// Whether the line can have an answer of this kind, with its numbers in range.
fn can_answer(line: GlobalLine, answer: GlobalAnswer) -> bool
    ensures { result ≡ spec.can_answer line answer }
{
    match line {
        GlobalLine::Wipe(_) | GlobalLine::Ask(_) => matches!(answer, GlobalAnswer::Ok),
        GlobalLine::Promise { .. } => match answer {
            GlobalAnswer::Ok
            | GlobalAnswer::Unasked
            | GlobalAnswer::Lacking
            | GlobalAnswer::WordFault => true,
            GlobalAnswer::Old(word) => word <= 1000,
            _ => false,
        },
        GlobalLine::Merge(_) => match answer {
            GlobalAnswer::Counts { .. } | GlobalAnswer::Lacking => true,
            GlobalAnswer::Short(count) => count <= 7,
            GlobalAnswer::Old(word) => word <= 1000,
            _ => false,
        },
        GlobalLine::Adopt { .. } => match answer {
            GlobalAnswer::Ok | GlobalAnswer::Unmade | GlobalAnswer::WordFault => true,
            GlobalAnswer::Old(word) => word <= 1000,
            _ => false,
        },
        GlobalLine::Enter(_) => match answer {
            GlobalAnswer::Entered(count) | GlobalAnswer::Short(count) => count <= 7,
            _ => false,
        },
    }
}

pub fn global_fits(head: &Head, entry: &GlobalEntry) -> bool
    ensures { result ≡ shape.global_fits (history head.now []) entry.now }
{
    in_range(head.size.n(), entry.line) && can_answer(entry.line, entry.answer)
}

/// Whether the line's numbers are in range in a run of the head, and its answer is one of a kind that it can have, with its
/// numbers in range.
pub fn line_fits(head: &Head, entry: &GlobalEntry) -> bool
    ensures { (rounds : List RoundLog) → result ≡ shape.global_fits (history head.now rounds) entry.now }
{
    global_fits(head, entry)
}
