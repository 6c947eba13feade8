//! Walks over a transfer's entries.

ghost use Rattle.std.specs.Prelude.{◌≡◌, ◌+◌, ◌-◌, ◌<◌, ◌≤◌, ◌↔◌, [], IfErr, IfOk, IsOk};
ghost use Rattle.std.specs.Prelude.{OnErr, OnOk, Some, length};
ghost use Rattle.nv_host.specs.Pages.{IsPageSize};
ghost use Rattle.nv_prp.specs.inner.ListWalk.{Comes, IsList, ListTurn};
ghost use Rattle.nv_prp.specs.Place.{LieIn, places, table};
ghost use Rattle.nv_prp.specs.inner.Transfer.{HasWalked, transfer_of};
ghost use Rattle.nv_prp.specs.Transfer.{IsLegal, data_pages as pages_of, fault_after_prp1};
ghost use Rattle.nv_prp.specs.Transfer.{first_fault, most_bytes, room, span_of, spans_of, transfer};
ghost use Rattle.nv_prp.specs.Transfer.{transfer_places};

use crate::pointer::{DataPointer, ListShape, check, load_page_address, qwords_in_page};
use crate::{PrpError, Spans};
use nv_host::PagedMemory;

/// Finds the spans of the transfer that a command's PRP entries describe, one for each data page.
/// The transfer has from 1 to 1,048,576 bytes. Section "Physical Region Page Entry and List".
///
/// If there is one data page, PRP2 has no meaning and isn't read. If there are two, it is the
/// address of the second page, and if there are more, the address of a list.
///
/// The error is that of the first faulty entry, in this order: PRP1, PRP2, and then the list's
/// Qwords as they are used. The offset of an entry is checked first. After an error `spans` is
/// empty, whatever it held before.
#[tactic(auto, using(crate::proofs::SpanLaws::walks))]
pub fn walk<M: PagedMemory>(
    mem: &M,
    prp1: u64,
    prp2: u64,
    len: u32,
    spans: &mut Spans,
) -> Result<(), PrpError>
    requires some { 0 < len }
    requires limit { len ≤ most_bytes }
    ensures legal { let t = transfer (M.page_len mem.now) (M.bytes mem.now) prp1 prp2 len in
        IsOk result ↔ IsLegal t }
    ensures fault { let t = transfer (M.page_len mem.now) (M.bytes mem.now) prp1 prp2 len in
        IfErr result (λ e. first_fault t ≡ Some e) }
    ensures spans { let t = transfer (M.page_len mem.now) (M.bytes mem.now) prp1 prp2 len in
        OnOk result (spans.new ≡ spans_of t) }
    ensures places { let t = transfer (M.page_len mem.now) (M.bytes mem.now) prp1 prp2 len in
        OnOk result (places spans.new ≡ transfer_places t) }
    ensures len { OnOk result (length (places spans.new) ≡ len) }
    ensures inside { OnOk result (LieIn (length (M.bytes mem.now)) spans.new) }
    ensures err { OnErr result (spans.new ≡ []) }
{
    spans.clear();
    match walk_entries(mem, DataPointer { prp1, prp2, len }, spans) {
        Ok(()) => Ok(()),
        Err(fault) => {
            spans.clear();
            Err(fault)
        }
    }
}

/// Walks over the entries. After a fault `spans` holds the spans of the data pages before it.
#[tactic(auto, using(crate::proofs::FaultLaws::faults, crate::proofs::PageLaws::spans))]
fn walk_entries<M: PagedMemory>(
    mem: &M,
    pointer: DataPointer,
    spans: &mut Spans,
) -> Result<(), PrpError>
    requires some { 0 < pointer.len }
    requires limit { pointer.len ≤ most_bytes }
    requires empty { spans.old ≡ [] }
    ensures size { OnOk result (IsPageSize (M.page_len mem.now)) }
    ensures walked { let t = transfer_of (M.page_len mem.now) (M.bytes mem.now) pointer in
        HasWalked t (first_fault t) result spans.new }
{
    check(mem, 4, pointer.prp1)?;
    spans.push(pointer.span(mem, 0, pointer.prp1));
    match pointer.data_pages(mem) {
        1 => Ok(()),
        2 => {
            check(mem, mem.page_size(), pointer.prp2)?;
            spans.push(pointer.span(mem, 1, pointer.prp2));
            Ok(())
        }
        pages => walk_list(mem, pointer, pages, spans),
    }
}

/// Walks over the list, which there is if there are more than two data pages.
#[tactic(auto, using(crate::proofs::ListLaws::list_steps))]
fn walk_list<M: PagedMemory>(
    mem: &M,
    pointer: DataPointer,
    pages: u32,
    spans: &mut Spans,
) -> Result<(), PrpError>
    requires few { pages ≤ 257 }
    requires pages { pages ≡ pages_of (transfer_of (M.page_len mem.now) (M.bytes mem.now) pointer) }
    requires many { 2 < pages }
    requires first { let t = transfer_of (M.page_len mem.now) (M.bytes mem.now) pointer in
        spans.old ≡ table 1 (span_of t) }
    ensures { let t = transfer_of (M.page_len mem.now) (M.bytes mem.now) pointer in
        HasWalked t (fault_after_prp1 t) result spans.new }
{
    check(mem, 8, pointer.prp2)?;
    let list = ListShape {
        room: qwords_in_page(mem, pointer.prp2),
        pages,
    };
    let mut next = pointer.prp2;
    for page in 1..pages {
        let at = naming_qword(mem, pointer, list, page, next)?;
        let address = load_page_address(mem, at)?;
        spans.push(pointer.span(mem, page, address));
        next = at + 8;
    }
    Ok(())
}

/// Returns the address of the Qword that holds the address of a data page. `next` is the address of
/// the Qword after those that were used.
#[tactic(auto, using(crate::proofs::ListLaws::next_inside))]
fn naming_qword<M: PagedMemory>(
    mem: &M,
    pointer: DataPointer,
    list: ListShape,
    page: u32,
    next: u64,
) -> Result<u64, PrpError>
    requires list { IsList (transfer_of (M.page_len mem.now) (M.bytes mem.now) pointer) }
    requires room { list.room ≡ room (transfer_of (M.page_len mem.now) (M.bytes mem.now) pointer) }
    requires pages { let t = transfer_of (M.page_len mem.now) (M.bytes mem.now) pointer in
        list.pages ≡ pages_of t }
    requires below { page < list.pages }
    requires comes { Comes (transfer_of (M.page_len mem.now) (M.bytes mem.now) pointer) page next }
    ensures turn { let t = transfer_of (M.page_len mem.now) (M.bytes mem.now) pointer in
        IfOk result (λ at. ListTurn t page at) }
    ensures fault { let t = transfer_of (M.page_len mem.now) (M.bytes mem.now) pointer in
        IfErr result (λ e. fault_after_prp1 t ≡ Some e) }
{
    if list.chains_before(page) {
        let second = load_page_address(mem, next)?;
        return Ok(second);
    }
    Ok(next)
}
