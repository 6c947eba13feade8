//! The spans of memory that a transfer covers, in order, and copies between them and a slice or a
//! payload, in the order of the transfer. "Out" is to this memory, and "in" is from it.

ghost use Rattle.std.specs.Prelude.{◌≡◌, ◌<◌, ◌≤◌, ◌^◌, ◌++◌, ◌∷◌, ◌↔◌, [], IsTrue, length, take};
ghost use Rattle.nv_prp.specs.Place.{LieIn, places, read_at, written_at};
ghost use Rattle.nv_prp.specs.declared.spans.Span.{Span};

use crate::range::{first_part, read_range, write_range};
use nv_host::{PagedMemory, Payload};
use std::fmt;
use std::marker::Model;

/// Consecutive bytes of the memory, all in one page.
#[derive(Clone, Copy, Debug, PartialEq, Eq)]
pub struct Span {
    /// The address of the first byte.
    pub address: u64,
    /// How many bytes there are.
    pub len: u32,
}

/// At most 257 spans, one for each data page of a transfer.
#[derive(Drop)]
pub struct Spans {
    spans: [Span; 257],
    count: usize,
}

impl Model for Spans {
    ghost use Rattle.std.specs.Prelude.{◌≤◌, List, take};
    ghost use Rattle.nv_prp.specs.declared.spans.Span.{Span};

    ghost Value = { List Span };

    ghost view = { λ s. take s.count s.spans };

    ghost invariant = { λ s. s.count ≤ 257 };
}

impl Spans {
    /// Creates an empty list of spans.
    pub fn new() -> Spans
        ensures { result ≡ [] }
    {
        Spans {
            spans: [Span { address: 0, len: 0 }; 257],
            count: 0,
        }
    }

    /// Returns the spans in order.
    pub fn as_slice(&self) -> &[Span]
        ensures spans { result.now ≡ self.now }
        ensures within { length self.now ≤ 257 }
    {
        &self.spans[..self.count]
    }

    /// Returns how many spans there are.
    pub fn len(&self) -> usize
        ensures { result ≡ length self.now }
    {
        self.as_slice().len()
    }

    /// Returns whether there are no spans.
    pub fn is_empty(&self) -> bool
        ensures { IsTrue result ↔ (self.now ≡ []) }
    {
        self.as_slice().is_empty()
    }

    /// Removes all spans.
    pub fn clear(&mut self)
        ensures { self.new ≡ [] }
    {
        self.count = 0;
    }

    pub(crate) fn push(&mut self, span: Span)
        requires { length self.old < 257 }
        ensures { self.new ≡ self.old ++ span ∷ [] }
    {
        self.spans[self.count] = span;
        self.count += 1;
    }
}

impl fmt::Debug for Spans {
    ghost use Rattle.std.specs.Fmt.{debug_list};

    ghost debug_output = { debug_list ⟦<Span as fmt::Debug>⟧.debug_output };

    fn fmt<W: fmt::Write>(&self, f: &mut fmt::Formatter<W>) -> fmt::Result {
        self.as_slice().fmt(f)
    }
}

/// Writes the bytes of a payload to the spans of the memory, one span after the other. If spans
/// overlap, the later byte stays.
///
/// The spans must lie in the memory, and have as many bytes as the payload.
#[tactic(auto, using(crate::proofs::CopyLaws::lefts))]
pub fn write_out<M: PagedMemory, P: Payload>(mem: &mut M, spans: &Spans, payload: &P)
    requires inside { LieIn (length (M.bytes mem.old)) spans.now }
    requires len { length (places spans.now) ≡ length (P.bytes payload.now) }
    requires limit { length (P.bytes payload.now) < 2 ^ 64 }
    ensures bytes { M.bytes mem.new
        ≡ written_at (M.bytes mem.old) (places spans.now) (P.bytes payload.now) }
    ensures len { length (M.bytes mem.new) ≡ length (M.bytes mem.old) }
    ensures page { M.page_len mem.new ≡ M.page_len mem.old }
{
    let mut at = 0;
    for span in spans.as_slice() {
        let len = span.len as usize;
        write_range(mem, span.address, payload, at, len);
        at += len;
    }
}

/// Writes the bytes of `source` to the spans of the memory, one span after the other. If spans
/// overlap, the later byte stays.
///
/// The spans must lie in the memory, and have as many bytes as `source`.
pub fn copy_out<M: PagedMemory>(mem: &mut M, spans: &Spans, source: &[u8])
    requires inside { LieIn (length (M.bytes mem.old)) spans.now }
    requires len { length (places spans.now) ≡ length source.now }
    ensures bytes { M.bytes mem.new ≡ written_at (M.bytes mem.old) (places spans.now) source.now }
    ensures len { length (M.bytes mem.new) ≡ length (M.bytes mem.old) }
    ensures page { M.page_len mem.new ≡ M.page_len mem.old }
{
    write_out(mem, spans, &source);
}

/// Reads the bytes of the spans of the memory into `out`, one span after the other. The memory
/// doesn't change.
///
/// The spans must lie in the memory, and have as many bytes as `out`.
#[tactic(auto, using(crate::proofs::CopyLaws::lefts))]
pub fn copy_in<M: PagedMemory>(mem: &M, spans: &Spans, out: &mut [u8])
    requires inside { LieIn (length (M.bytes mem.now)) spans.now }
    requires len { length (places spans.now) ≡ length out.old }
    ensures { out.new ≡ read_at (M.bytes mem.now) (places spans.now) }
{
    let mut at = 0;
    for span in spans.as_slice() {
        let end = at + span.len as usize;
        read_range(mem, span.address, &mut out[at..end]);
        at = end;
    }
}

/// Returns the bytes of the spans of the memory: where they lie if they are one span inside a page,
/// or else a copy in `room`.
///
/// The spans must lie in the memory, and have as many bytes as `room`.
#[tactic(auto, using(crate::proofs::CopyLaws::viewed))]
pub fn view_in<'a, M: PagedMemory>(mem: &'a M, spans: &Spans, room: &'a mut [u8]) -> &'a [u8]
    requires inside { LieIn (length (M.bytes mem.now)) spans.now }
    requires len { length (places spans.now) ≡ length room.old }
    ensures { result.now ≡ read_at (M.bytes mem.now) (places spans.now) }
{
    if let [span] = spans.as_slice()
        && span.len != 0
    {
        let part = first_part(mem, span.address, span.len as usize);
        if part.len == span.len as usize {
            return &mem.page(part.page)[part.start..part.start + part.len];
        }
    }
    copy_in(mem, spans, room);
    room
}
