//! Spans from versions to the stamps of their readers.
ghost use Rattle.std.specs.Prelude.{◌≡◌, ◌≤◌, true, false, ◌||◌, [], ◌∷◌, length, IfOk, OnOk};
ghost use Rattle.std.specs.List.{splice};
ghost use Rattle.std.specs.List.Sorted.{IsPartitionPoint};
ghost use Rattle.mk_txn.specs.declared.Stamp.{Stamp as StampValue};
ghost use Rattle.mk_txn.specs.Stamps.{is_before};
ghost use Rattle.mk_merge.specs.Ascending.{AscendsBy};
ghost use Rattle.mk_merge.specs.Spanning.{spans_over, is_spanned};

use mk_txn::{NoMemory, Stamp, precedes};
use std::alloc::Global;
use std::marker::Model;

// A version that was read, and the stamp of its reader.
#[derive(Clone, Copy)]
pub(crate) struct Span {
    pub version: Stamp,
    pub reader: Stamp,
}

// Up to where the versions are before the stamp.
fn end_before(spans: &[Span], stamp: Stamp) -> usize
    requires { AscendsBy (λ span. span.version) spans.now }
    ensures bound { result ≤ length spans.now }
    ensures split { IsPartitionPoint (λ span. is_before span.version stamp ≡ true) (λ span. is_before span.version stamp ≡ false) spans.now result }
{
    spans.partition_point(|span| precedes(span.version, stamp))
}

// Up to where the readers are not after the stamp.
fn end_upto(spans: &[Span], stamp: Stamp) -> usize
    requires { AscendsBy (λ span. span.reader) spans.now }
    ensures bound { result ≤ length spans.now }
    ensures split { IsPartitionPoint (λ span. is_before stamp span.reader ≡ false) (λ span. is_before stamp span.reader ≡ true) spans.now result }
{
    spans.partition_point(|span| !precedes(stamp, span.reader))
}

// The span in place of those from `start` to `end`.
fn replace(list: &mut Vec<Span>, start: usize, end: usize, span: Span) -> Result<(), NoMemory>
    requires order { start ≤ end }
    requires bound { end ≤ length list.old.items }
    ensures { OnOk result (list.new.items ≡ splice list.old.items start end (span ∷ [])) }
{
    list.drain(start..end);
    list.insert(start, span)?;
    Ok(())
}

// Spans, of which the versions and the readers ascend together.
#[derive(Drop)]
pub(crate) struct Spans {
    list: Vec<Span>,
}

impl Model for Spans {
    ghost use Rattle.std.specs.Prelude.{List};
    ghost use Rattle.mk_merge.specs.declared.spanning.Span.{Span};
    ghost use Rattle.mk_merge.specs.Spanning.{AreSpans};

    ghost Value = { List Span };

    ghost view = { λ spans. spans.list.items };

    ghost invariant = { λ spans. AreSpans spans.list.items };
}

impl Spans {
    pub(crate) fn new(alloc: Global) -> Spans
        ensures { result ≡ [] }
    {
        Spans {
            list: Vec::new(alloc),
        }
    }

    // One more, unless another is over all that it is over, and without those that are over nothing else.
    pub(crate) fn with(self, span: Span) -> Result<Spans, NoMemory>
        ensures { IfOk result (λ spans. (stamp : StampValue) → is_spanned stamp spans ≡ (is_spanned stamp self || spans_over stamp span)) }
    {
        let mut list = self.list;
        let start = end_before(list.as_slice(), span.version);
        let end = end_upto(list.as_slice(), span.reader);
        if start <= end {
            replace(&mut list, start, end, span)?;
        }
        Ok(Spans { list })
    }

    // Whether the stamp lies in one of them.
    pub(crate) fn reaches(&self, stamp: Stamp) -> bool
        ensures { result ≡ is_spanned stamp self.now }
    {
        let end = end_before(self.list.as_slice(), stamp);
        end > 0 && precedes(stamp, self.list[end - 1].reader)
    }
}
