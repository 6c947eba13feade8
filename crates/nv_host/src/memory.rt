//! A host's memory whose pages can be changed where they lie, and one in a vector.

ghost use Rattle.std.specs.Prelude.{◌≡◌, ◌+◌, ◌*◌, ◌≤◌, ◌↔◌, ℕ, IfOk, IsOk, IsTrue, List};
ghost use Rattle.std.specs.Prelude.{length, refl, replicate};
ghost use Rattle.std.specs.Borrow.{sem, Array, Lends, u8 as byte};
ghost use Rattle.nv_host.specs.Bytes.{bytes_at, with_bytes};
ghost use Rattle.nv_host.specs.FlatMemory.{only_page, with_page};
ghost use Rattle.nv_host.specs.Pages.{HasPage, IsPageSize, are_pages, is_page_size};

use crate::paged::{PagedMemory, Payload};
use crate::{Memory, OutOfMemoryRange};
use std::alloc::Global;
use std::marker::Model;

/// A host's memory that also lends its pages to be changed.
pub trait HostMemory: PagedMemory {
    /// The memory after the bytes of a page have become these.
    ghost with_page: { Self → ℕ → List ℕ → Self };

    /// Lends the bytes of a page, whose number is less than `pages`, to be changed. What is written
    /// there changes this page alone.
    fn page_mut(&mut self, n: u32) -> &mut [u8]
        requires { HasPage (Self.bytes self.old) (Self.page_len self.old) n }
        ensures* writes_back { sem 𝓛 (Lends Self.row (Array byte 0) self.entry result
            (with_page self.old n)) }
        ensures value { result.now ≡ bytes_at (Self.bytes self.old) (n * Self.page_len self.old)
            (Self.page_len self.old) }
        ensures len { length result.now ≡ Self.page_len self.old };

    ghost only_page: { (m : Self) (n : ℕ) (page : List ℕ) → HasPage (Self.bytes m) (Self.page_len m) n
        → length page ≡ Self.page_len m
        → Self.bytes (with_page m n page) ≡ with_bytes (Self.bytes m) (n * Self.page_len m) page };

    ghost same_page_len: { (m : Self) (n : ℕ) (page : List ℕ) → Self.page_len (with_page m n page)
        ≡ Self.page_len m };
}

/// Whether a page can have this many bytes.
#[tactic(auto, unfolding(crate::specs::Pages::IsPageSize))]
pub fn is_page_size(size: u32) -> bool
    ensures value { result ≡ is_page_size size }
    ensures meaning { IsTrue result ↔ IsPageSize size }
{
    [4096, 8192, 16384, 32768, 65536].contains(&size)
}

/// How many numbers pages can have.
const PAGE_NUMBERS: usize = 1 << 32;

/// Whether so many bytes are whole pages of a size that a page can have, fewer than 2^32.
#[tactic(auto, using(crate::proofs::PageLaws::page_size_bounds))]
pub fn are_pages(page_size: u32, size: usize) -> bool
    ensures { result ≡ are_pages page_size size }
{
    is_page_size(page_size)
        && size % page_size as usize == 0
        && size / (page_size as usize) < PAGE_NUMBERS
}

/// How many bytes the memory has. They fill whole pages.
pub fn size_of_memory<M: PagedMemory>(mem: &M) -> u64
    ensures value { result ≡ length (M.bytes mem.now) }
    ensures whole { (pages : ℕ) × (pages * M.page_len mem.now ≡ length (M.bytes mem.now)) }
    ensures page { IsPageSize (M.page_len mem.now) }
{
    u64::from(mem.pages()) * u64::from(mem.page_size())
}

/// Returns where the range of `len` bytes from an address on ends, in a memory of `size` bytes.
pub(crate) fn end_of_range(size: usize, addr: u64, len: usize) -> Result<usize, OutOfMemoryRange>
    ensures inside { IsOk result ↔ (addr + len ≤ size) }
    ensures value { IfOk result (λ end. end ≡ addr + len) }
{
    let size = size as u64;
    if addr > size || len as u64 > size - addr {
        return Err(OutOfMemoryRange);
    }
    Ok(addr as usize + len)
}

/// A host's memory in one vector.
#[derive(Drop)]
pub struct FlatMemory {
    page_size: u32,
    pages: u32,
    bytes: Vec<u8>,
}

impl Model for FlatMemory {
    ghost use Rattle.std.specs.Prelude.{◌≡◌, ◌*◌, vec_len};
    ghost use Rattle.nv_host.specs.Pages.{IsPageSize, PagedBytes};

    ghost Value = { PagedBytes };

    ghost view = { λ m. record { page_size = m.page_size; bytes = m.bytes.items } };

    ghost invariant = { λ m. IsPageSize m.page_size × (m.pages * m.page_size ≡ vec_len m.bytes) };
}

impl FlatMemory {
    /// A memory of this many pages, all of whose bytes are 0. A page has 4096, 8192, 16384, 32768
    /// or 65536 bytes.
    #[tactic(auto, using(crate::proofs::PageLaws::page_size_bounds))]
    pub fn new(alloc: Global, page_size: u32, pages: u32) -> Result<FlatMemory, Memory>
        requires { IsPageSize page_size }
        ensures { IfOk result (λ m. m ≡ record {
          page_size = page_size;
          bytes = replicate (pages * page_size) 0;
        }) }
    {
        let size = pages as usize * page_size as usize;
        match vec![in alloc; 0u8; size] {
            Ok(bytes) => Ok(FlatMemory {
                page_size,
                pages,
                bytes,
            }),
            Err(_) => Err(Memory),
        }
    }
}

#[tactic(auto, unfolding(crate::specs::Bytes::bytes_at, crate::specs::Bytes::with_bytes))]
impl PagedMemory for FlatMemory {
    ghost bytes = { λ m. m.bytes };

    ghost page_len = { λ m. m.page_size };

    fn page_size(&self) -> u32 {
        self.page_size
    }

    fn pages(&self) -> u32 {
        self.pages
    }

    fn load(&self, addr: u64, out: &mut [u8]) -> Result<(), OutOfMemoryRange> {
        let end = end_of_range(self.bytes.len(), addr, out.len())?;
        out.copy_from_slice(&self.bytes[addr as usize..end]);
        Ok(())
    }

    fn store(&mut self, addr: u64, source: &[u8]) -> Result<(), OutOfMemoryRange> {
        let end = end_of_range(self.bytes.len(), addr, source.len())?;
        self.bytes[addr as usize..end].copy_from_slice(source);
        Ok(())
    }

    fn page(&self, n: u32) -> &[u8] {
        let start = n as usize * self.page_size as usize;
        &self.bytes[start..start + self.page_size as usize]
    }

    fn fill<P: Payload>(&mut self, n: u32, start: usize, payload: &P, from: usize, len: usize) {
        let place = n as usize * self.page_size as usize + start;
        payload.fill(from, &mut self.bytes[place..place + len]);
    }
}

#[tactic(auto, unfolding(crate::specs::Bytes::bytes_at, crate::specs::Bytes::with_bytes))]
impl HostMemory for FlatMemory {
    ghost with_page = { with_page };

    ghost only_page = { only_page };

    ghost same_page_len = { λ m n page. refl };

    fn page_mut(&mut self, n: u32) -> &mut [u8] {
        let start = n as usize * self.page_size as usize;
        self.bytes.slice_mut(start..start + self.page_size as usize)
    }
}
