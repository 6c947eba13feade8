//! Buffers in pages of the host's memory, and the PRP entries of transfers to and from them.

ghost use Rattle.std.specs.Prelude.{◌≡◌, ◌≢◌, ℕ, ◌+◌, ◌-◌, ◌*◌, ◌/◌, ◌%◌, ◌<◌, ◌≤◌, ◌∷◌, length};
ghost use Rattle.nv_prp.specs.Buffer.{IsBuffer, IsListPlace, KeepsOutside, KeepsOutsideList, StaysFor};
ghost use Rattle.nv_prp.specs.Buffer.{buffer_place, buffer_places};
ghost use Rattle.nv_prp.specs.inner.Buffer.{NamesPages};
ghost use Rattle.nv_prp.specs.Place.{AreDistinct, LieIn, places};
ghost use Rattle.nv_prp.specs.Transfer.{IsLegal, data_pages as pages_of, most_bytes, place_of};
ghost use Rattle.nv_prp.specs.Transfer.{room as room_of, transfer};

use crate::pointer::{DataPointer, ListShape, page_address, qwords_in_page, store_qword};
use crate::{Span, Spans};
use nv_host::{PageNo, PagedMemory};
use std::cmp::min;

/// A buffer in pages of the host's memory.
#[derive(Clone, Copy, Debug)]
pub struct Buffer<'a> {
    /// The numbers of its pages, in the order of its bytes.
    pub pages: &'a [PageNo],
    /// Where the buffer begins in the first page, in bytes: a multiple of 4 below the page size.
    pub offset: u32,
}

impl Buffer<'_> {
    /// Finds where the first `len` bytes of the buffer lie in the memory, at most 1,048,576 of
    /// them: one span for each page that holds any.
    ///
    /// The pages must lie in the memory, and hold `len` bytes from the buffer's offset on.
    #[tactic(auto, using(crate::proofs::BufferSpanLaws::spans, crate::proofs::BufferSpanLaws::one_span))]
    pub fn spans<M: PagedMemory>(&self, mem: &M, len: u32, spans: &mut Spans)
        requires limit { len ≤ most_bytes }
        requires buffer { IsBuffer (M.bytes mem.now)
            (M.page_len mem.now) self.now.pages.now self.now.offset len }
        ensures places { places spans.new ≡ buffer_places
            (M.page_len mem.now) self.now.pages.now self.now.offset len }
        ensures len { length (places spans.new) ≡ len }
        ensures inside { LieIn (length (M.bytes mem.now)) spans.new }
    {
        let page_size = mem.page_size();
        spans.clear();
        let mut done = 0;
        while done < len {
            let at = self.offset + done;
            let start = at % page_size;
            let page = page_address(mem, self.pages[(at / page_size) as usize]);
            let span = Span {
                address: page + u64::from(start),
                len: min(len - done, page_size - start),
            };
            spans.push(span);
            done += span.len;
        }
    }
}

/// The place for a list: two pages of the memory.
#[derive(Clone, Copy, Debug, PartialEq, Eq)]
pub struct ListPlace {
    /// The number of the page in which the list begins.
    pub first: PageNo,
    /// The number of the page in which the list continues, from its first byte on, where the first
    /// page ends.
    pub second: PageNo,
    /// Where the list begins in the first page, in bytes: a multiple of 8 below the page size.
    pub offset: u32,
}

/// Returns the PRP entries, PRP1 and PRP2, of a transfer to or from the first `len` bytes of a
/// buffer, from 1 to 1,048,576 bytes. Section "Physical Region Page Entry and List".
///
/// PRP2 is 0 if there is one data page, the address of the second page if there are two, and the
/// address of the list if there are more. Then the list is written, and only its bytes change; with
/// one or two data pages, no byte of the memory does. As long as the bytes in the list's pages don't
/// change, the transfer stays the same, whatever else changes in the memory.
///
/// All pages must lie in the memory, also those of the list if none is written, and must be
/// distinct. The offsets must be below the page size and multiples of 4 (the buffer) and 8 (the
/// list), and the pages must hold `len` bytes from the buffer's offset on.
pub fn build<M: PagedMemory>(mem: &mut M, buffer: &Buffer, list: &ListPlace, len: u32) -> (u64, u64)
    requires some { 0 < len }
    requires limit { len ≤ most_bytes }
    requires buffer { IsBuffer (M.bytes mem.old)
        (M.page_len mem.old) buffer.now.pages.now buffer.now.offset len }
    requires list { IsListPlace (M.bytes mem.old)
        (M.page_len mem.old) list.now.first list.now.second list.now.offset }
    requires distinct { AreDistinct (list.now.first ∷ list.now.second ∷ buffer.now.pages.now) }
    ensures legal { IsLegal (transfer (M.page_len mem.new)
        (M.bytes mem.new) result.0 result.1 len) }
    ensures places { let t = transfer (M.page_len mem.new)
        (M.bytes mem.new) result.0 result.1 len in
        (i : ℕ) → i < len → place_of t i ≡ buffer_place
        (M.page_len mem.new) buffer.now.pages.now buffer.now.offset i }
    ensures stays { StaysFor (transfer (M.page_len mem.new) (M.bytes mem.new) result.0 result.1 len)
        buffer.now.pages.now buffer.now.offset list.now.first list.now.second }
    // If there is one data page, PRP2 has no meaning.
    ensures no_prp2 { let t = transfer (M.page_len mem.new)
        (M.bytes mem.new) result.0 result.1 len in
        pages_of t ≡ 1 → result.1 ≡ 0 }
    ensures list { let t = transfer (M.page_len mem.new) (M.bytes mem.new) result.0 result.1 len in
        2 < pages_of t → result.1 ≡ list.now.first * M.page_len mem.new + list.now.offset }
    ensures no_list { let t = transfer (M.page_len mem.new) (M.bytes mem.new) result.0 result.1 len in
        pages_of t ≤ 2 → M.bytes mem.new ≡ M.bytes mem.old }
    ensures only_list { let t = transfer (M.page_len mem.new) (M.bytes mem.new) result.0 result.1 len in
        2 < pages_of t → KeepsOutsideList (room_of t) result.1 (list.now.second * M.page_len mem.new)
        (pages_of t) (M.bytes mem.old) (M.bytes mem.new) }
    ensures others { KeepsOutside (M.page_len mem.old) list.now.first list.now.second
        (M.bytes mem.old) (M.bytes mem.new) }
    ensures len { length (M.bytes mem.new) ≡ length (M.bytes mem.old) }
    ensures page { M.page_len mem.new ≡ M.page_len mem.old }
{
    let prp1 = page_address(mem, buffer.pages[0]) + u64::from(buffer.offset);
    let pointer = DataPointer { prp1, prp2: 0, len };
    match pointer.data_pages(mem) {
        1 => (prp1, 0),
        2 => (prp1, page_address(mem, buffer.pages[1])),
        count => (prp1, write_list(mem, buffer.pages, list, count)),
    }
}

/// Writes the addresses of all data pages of a buffer but the first, and the address of the second
/// list page if there is one. Returns the list's address.
#[tactic(auto, using(crate::proofs::WriteLaws::list_even))]
fn write_list<M: PagedMemory>(mem: &mut M, pages: &[PageNo], list: &ListPlace, count: u32) -> u64
    requires few { count ≤ 257 }
    requires many { 2 < count }
    requires enough { count ≤ length pages.now }
    requires list { IsListPlace (M.bytes mem.old)
        (M.page_len mem.old) list.now.first list.now.second list.now.offset }
    requires apart { list.now.first ≢ list.now.second }
    ensures value { result ≡ list.now.first * M.page_len mem.old + list.now.offset }
    ensures names { let room = (M.page_len mem.old - result % M.page_len mem.old) / 8 in
        NamesPages (M.bytes mem.new) (M.page_len mem.old) room result
        (list.now.second * M.page_len mem.old) pages.now count }
    ensures others { let room = (M.page_len mem.old - result % M.page_len mem.old) / 8 in
        KeepsOutsideList room result (list.now.second * M.page_len mem.old) count
        (M.bytes mem.old) (M.bytes mem.new) }
    ensures len { length (M.bytes mem.new) ≡ length (M.bytes mem.old) }
    ensures page { M.page_len mem.new ≡ M.page_len mem.old }
{
    let start = page_address(mem, list.first) + u64::from(list.offset);
    let second = page_address(mem, list.second);
    let shape = ListShape {
        room: qwords_in_page(mem, start),
        pages: count,
    };
    for page in 1..count {
        let address = page_address(mem, pages[page as usize]);
        store_qword(mem, shape.naming_qword(start, second, page), address);
    }
    if shape.has_second_page() {
        store_qword(mem, start + 8 * u64::from(shape.room - 1), second);
    }
    start
}
