//! A host's memory in bytes that a caller lends.

ghost use Rattle.std.specs.Prelude.{◌≡◌, ◌*◌, IsTrue, length};
ghost use Rattle.std.specs.Borrow.{GName};
ghost use Rattle.nv_host.specs.Pages.{are_pages, is_page_size};

use crate::memory::end_of_range;
use crate::paged::PagedMemory;
use crate::{OutOfMemoryRange, Payload};
use std::marker::{Brand, PhantomData};

/// By which reference a caller lends bytes. A function that makes a [`LentMemory`] has a parameter
/// with this bound, takes the bytes as `&'a mut [u8]`, and returns what it gives back. (So the
/// reference keeps its name. A reference that is let go in between gets another name.) Its caller
/// passes `Brand`, and the proof of that call picks the reference.
pub trait Loan {
    ghost reference: { GName };
}

impl Loan for Brand {
    ghost reference = { 0 };
}

/// The bytes of a [`LentMemory`].
#[derive(Drop)]
pub struct LentBytes<'a> {
    pub bytes: &'a mut [u8],
}

/// A host's memory in bytes that a caller lends: what it holds at its end is what they are then.
/// Since its type names the reference, no call can put other bytes in their place.
#[derive(Drop)]
pub struct LentMemory<'a, L: Loan> {
    page_size: u32,
    pages: u32,
    bytes: &'a mut [u8],
    loan: PhantomData<L>,
    ghost page: { IsTrue (is_page_size page_size) },
    ghost whole: { pages * page_size ≡ length bytes.now },
    ghost same_reference: { bytes.ghost_name ≡ L.reference },
}

impl<'a, L: Loan> LentMemory<'a, L> {
    /// Creates the memory in these bytes, which are whole pages of this size.
    #[tactic(auto, using(crate::proofs::PageLaws::pages_fill))]
    pub fn new(bytes: &'a mut [u8], page_size: u32) -> LentMemory<'a, L>
        requires pages { IsTrue (are_pages page_size (length bytes.old)) }
        requires loan { bytes.ghost_name ≡ L.reference }
        ensures bytes { result.bytes.now ≡ bytes.old }
        ensures page { result.page_size ≡ page_size }
    {
        let pages = (bytes.len() / page_size as usize) as u32;
        LentMemory {
            page_size,
            pages,
            bytes,
            loan: PhantomData,
        }
    }

    /// Gives the bytes back.
    pub fn into_bytes(self) -> LentBytes<'a>
        ensures same_reference { result.bytes.ghost_name ≡ L.reference }
        ensures value { result.bytes.now ≡ self.entry.bytes.now }
    {
        let LentMemory { bytes, .. } = self;
        LentBytes { bytes }
    }
}

#[tactic(auto, unfolding(crate::specs::Bytes::bytes_at, crate::specs::Bytes::with_bytes))]
impl<'a, L: Loan> PagedMemory for LentMemory<'a, L> {
    ghost bytes = { λ m. m.bytes.now };

    ghost page_len = { λ m. m.page_size };

    #[tactic(auto, unfolding(crate::specs::Pages::IsPageSize))]
    fn page_size(&self) -> u32 {
        self.page_size
    }

    fn pages(&self) -> u32 {
        self.pages
    }

    fn load(&self, addr: u64, out: &mut [u8]) -> Result<(), OutOfMemoryRange> {
        let end = end_of_range(self.bytes.len(), addr, out.len())?;
        out.copy_from_slice(&self.bytes[addr as usize..end]);
        Ok(())
    }

    fn store(&mut self, addr: u64, source: &[u8]) -> Result<(), OutOfMemoryRange> {
        let end = end_of_range(self.bytes.len(), addr, source.len())?;
        self.bytes[addr as usize..end].copy_from_slice(source);
        Ok(())
    }

    fn page(&self, n: u32) -> &[u8] {
        let start = n as usize * self.page_size as usize;
        &self.bytes[start..start + self.page_size as usize]
    }

    fn fill<P: Payload>(&mut self, n: u32, start: usize, payload: &P, from: usize, len: usize) {
        let place = n as usize * self.page_size as usize + start;
        payload.fill(from, &mut self.bytes[place..place + len]);
    }
}
