//! The data pointer of a command, the pages in which its bytes lie, and the entries and lists that
//! name these pages.

ghost use Rattle.std.specs.Prelude.{◌≡◌, ◌+◌, ◌-◌, ◌%◌, ◌*◌, ◌/◌, ◌<◌, ◌≤◌, ◌^◌, IfOk, OnOk, length};
ghost use Rattle.std.specs.Prelude.{min};
ghost use Rattle.std.specs.Bool.{MatchBool};
ghost use Rattle.std.specs.Int.{div_ceil};
ghost use Rattle.nv_host.specs.Pages.{IsPageSize};
ghost use Rattle.nv_prp.specs.inner.Buffer.{ChangesOnly};
ghost use Rattle.nv_prp.specs.inner.Transfer.{HasFault, transfer_of};
ghost use Rattle.nv_prp.specs.Transfer.{entry_fault, first_byte, list_place, most_bytes, naming_number};
ghost use Rattle.nv_prp.specs.Transfer.{qword};

use crate::{PrpError, Span};
use nv_host::{PageNo, PagedMemory, size_of_memory};
use std::cmp::min;

/// The two PRP entries of a command, and the length of its transfer in bytes. Section "Data
/// Pointer".
#[derive(Clone, Copy, Debug, PartialEq, Eq)]
pub struct DataPointer {
    pub prp1: u64,
    pub prp2: u64,
    pub len: u32,
}

impl DataPointer {
    /// Returns how many pages the bytes lie in.
    #[tactic(auto, using(crate::proofs::PageLaws::page_counts))]
    pub(crate) fn data_pages<M: PagedMemory>(self, mem: &M) -> u32
        requires { self.len ≤ most_bytes }
        ensures value { result ≡ div_ceil (self.prp1 % M.page_len mem.now + self.len)
            (M.page_len mem.now) }
        ensures few { result ≤ 257 }
    {
        let page_size = mem.page_size();
        let offset = (self.prp1 % u64::from(page_size)) as u32;
        (offset + self.len).div_ceil(page_size)
    }

    /// Returns the span of a data page, whose first byte is at `address`.
    #[tactic(auto, using(crate::proofs::PageLaws::first_bytes))]
    pub(crate) fn span<M: PagedMemory>(self, mem: &M, page: u32, address: u64) -> Span
        requires { page < 257 }
        ensures { let t = transfer_of (M.page_len mem.now) (M.bytes mem.now) self in
            result ≡ record {
              address = address;
              len = first_byte t (page + 1) - first_byte t page;
            } }
    {
        let page_size = mem.page_size();
        let offset = (self.prp1 % u64::from(page_size)) as u32;
        let first = min(self.len, (page * page_size).saturating_sub(offset));
        let end = min(self.len, (page + 1) * page_size - offset);
        Span {
            address,
            len: end - first,
        }
    }
}

/// A list of the addresses of `pages` data pages but the first.
#[derive(Clone, Copy)]
pub struct ListShape {
    /// How many Qwords fit between the beginning of the list and the end of its first page.
    pub room: u32,
    pub pages: u32,
}

impl ListShape {
    /// Returns whether the list continues in a second page, whose address is the last Qword of the
    /// first one.
    pub(crate) fn has_second_page(self) -> bool
        ensures { MatchBool result (self.room + 1 < self.pages) (self.pages ≤ self.room + 1) }
    {
        self.room < self.pages.saturating_sub(1)
    }

    /// Returns whether the Qword before a data page's own holds the address of the second list
    /// page.
    pub(crate) fn chains_before(self, page: u32) -> bool
        ensures { MatchBool result ((page ≡ self.room) × (self.room + 1 < self.pages))
            (page ≡ self.room → self.pages ≤ self.room + 1) }
    {
        page == self.room && self.has_second_page()
    }

    /// Returns the address of the Qword that holds the address of a data page other than the first,
    /// in a list that begins at `first` and continues at `second`.
    #[tactic(auto, using(std::proofs::lemmas::Bool::Decides::nat_tests))]
    pub(crate) fn naming_qword(self, first: u64, second: u64, page: u32) -> u64
        requires later { 0 < page }
        requires below { page < self.pages }
        requires small { first + 8 * self.pages < 2 ^ 64 }
        requires small_second { second + 8 * self.pages < 2 ^ 64 }
        ensures { result ≡ list_place self.room first second
            (naming_number self.room self.pages page) }
    {
        if page >= self.room && self.has_second_page() {
            second + 8 * u64::from(page - self.room)
        } else {
            first + 8 * u64::from(page - 1)
        }
    }
}

/// Checks that an entry is a multiple of its alignment, and that its page lies in the memory.
#[tactic(auto, using(crate::proofs::FaultLaws::entries))]
pub(crate) fn check<M: PagedMemory>(mem: &M, alignment: u32, entry: u64) -> Result<(), PrpError>
    requires { 0 < alignment }
    ensures fault { let fault = entry_fault (M.page_len mem.now) (length
        (M.bytes mem.now)) alignment entry in
        HasFault result fault }
    ensures multiple { OnOk result (entry % alignment ≡ 0) }
    ensures fits { OnOk result (length (M.bytes mem.now) < 2 ^ 64) }
    ensures size { OnOk result (IsPageSize (M.page_len mem.now)) }
{
    if entry % u64::from(alignment) != 0 {
        return Err(PrpError::Offset);
    }
    if entry >= size_of_memory(mem) {
        return Err(PrpError::Outside);
    }
    Ok(())
}

/// Returns the page address in the Qword at an address of the memory.
#[tactic(auto, using(nv_host::proofs::PageLaws::page_size_bounds), unfolding(crate::specs::Transfer::qword))]
pub(crate) fn load_page_address<M: PagedMemory>(mem: &M, addr: u64) -> Result<u64, PrpError>
    requires { addr + 8 ≤ length (M.bytes mem.now) }
    ensures value { IfOk result (λ entry. entry ≡ qword (M.bytes mem.now) addr) }
    ensures fault { let entry = qword (M.bytes mem.now) addr in
        let fault = entry_fault (M.page_len mem.now) (length (M.bytes mem.now))
        (M.page_len mem.now) entry in
        HasFault result fault }
{
    let mut bytes = [0; 8];
    // The Qword lies in the memory.
    let _ = mem.load(addr, &mut bytes);
    let entry = u64::from_le_bytes(bytes);
    check(mem, mem.page_size(), entry)?;
    Ok(entry)
}

/// Writes a Qword at an address.
#[tactic(auto, using(crate::proofs::WriteLaws::stores, nv_host::proofs::BytesLaws::length_with_bytes))]
pub(crate) fn store_qword<M: PagedMemory>(mem: &mut M, addr: u64, value: u64)
    requires { addr + 8 ≤ length (M.bytes mem.old) }
    ensures value { qword (M.bytes mem.new) addr ≡ value }
    ensures others { ChangesOnly addr 8 (M.bytes mem.old) (M.bytes mem.new) }
    ensures len { length (M.bytes mem.new) ≡ length (M.bytes mem.old) }
    ensures page { M.page_len mem.new ≡ M.page_len mem.old }
{
    // The Qword lies in the memory.
    let _ = mem.store(addr, &value.to_le_bytes());
}

/// Returns how many Qwords there are from an address, a multiple of 8, to the end of its page.
#[tactic(auto, using(crate::proofs::ListLaws::rooms))]
pub(crate) fn qwords_in_page<M: PagedMemory>(mem: &M, addr: u64) -> u32
    requires { addr % 8 ≡ 0 }
    ensures value { result ≡ (M.page_len mem.now - addr % M.page_len mem.now) / 8 }
    ensures some { 0 < result }
    ensures whole { addr + 8 * result ≡ addr - addr % M.page_len mem.now + M.page_len mem.now }
{
    let page_size = mem.page_size();
    (page_size - (addr % u64::from(page_size)) as u32) / 8
}

/// Returns the address of a page.
#[tactic(auto, using(crate::proofs::PageLaws::page_times))]
pub(crate) fn page_address<M: PagedMemory>(mem: &M, page: PageNo) -> u64
    ensures value { result ≡ page * M.page_len mem.now }
    ensures small { result ≤ 2 ^ 48 }
    ensures size { IsPageSize (M.page_len mem.now) }
{
    u64::from(page) * u64::from(mem.page_size())
}
