//! What controllers, PRP lists and rings need of a host's memory.

ghost use Rattle.std.specs.Prelude.{◌≡◌, ◌+◌, ◌*◌, ◌≤◌, ◌↔◌, ℕ, IsOk, List, OnErr, OnOk};
ghost use Rattle.std.specs.Prelude.{drop, length, take};
ghost use Rattle.nv_host.specs.Bytes.{bytes_at, with_bytes};
ghost use Rattle.nv_host.specs.Pages.{HasPage, IsPageSize};

use crate::OutOfMemoryRange;

/// The memory of a host, as its bytes in pages, which are read where they lie and written part by
/// part. Page n begins at address n times the page size. Section "Physical Region Page Entry and
/// List".
///
/// Controllers, PRP lists and rings ask for no more, so they also work over a
/// [`LentMemory`](crate::LentMemory), which can lend no page to be changed.
pub trait PagedMemory {
    /// All bytes, from address 0 on.
    ghost bytes: { Self → List ℕ };

    ghost page_len: { Self → ℕ };

    /// How many bytes a page has: 4096, 8192, 16384, 32768 or 65536.
    fn page_size(&self) -> u32
        ensures value { result ≡ page_len self.now }
        ensures one_of_five { IsPageSize result };

    /// How many pages the memory has.
    fn pages(&self) -> u32
        ensures { result * page_len self.now ≡ length (bytes self.now) };

    /// Reads the bytes from an address on. Where the range leaves the memory, nothing is read.
    fn load(&self, addr: u64, out: &mut [u8]) -> Result<(), OutOfMemoryRange>
        ensures inside { IsOk result ↔ (addr + length out.old ≤ length (bytes self.now)) }
        ensures value { OnOk result (out.new ≡ bytes_at (bytes self.now) addr (length out.old)) }
        ensures err { OnErr result (out.new ≡ out.old) };

    /// Writes the bytes from an address on. Where the range leaves the memory, nothing is written.
    fn store(&mut self, addr: u64, source: &[u8]) -> Result<(), OutOfMemoryRange>
        ensures inside { IsOk result ↔ (addr + length source.now ≤ length (bytes self.old)) }
        ensures value { OnOk result (bytes self.new ≡ with_bytes (bytes self.old) addr source.now) }
        ensures err { OnErr result (bytes self.new ≡ bytes self.old) }
        ensures page { page_len self.new ≡ page_len self.old };

    /// The bytes of a page, whose number is less than `pages`.
    fn page(&self, n: u32) -> &[u8]
        requires { HasPage (bytes self.now) (page_len self.now) n }
        ensures value { result.now ≡ bytes_at (bytes self.now) (n * page_len self.now)
            (page_len self.now) }
        ensures len { length result.now ≡ page_len self.now };

    /// Has a payload write `len` of its bytes, from its byte `from` on, to a page, from the byte
    /// `start` of the page on. The payload has these bytes, and they end in the page.
    fn fill<P: Payload>(&mut self, n: u32, start: usize, payload: &P, from: usize, len: usize)
        requires page { HasPage (bytes self.old) (page_len self.old) n }
        requires inside { start + len ≤ page_len self.old }
        requires has { from + len ≤ length (P.bytes payload.now) }
        ensures value { bytes self.new ≡ with_bytes (bytes self.old)
            (n * page_len self.old + start) (take len (drop from (P.bytes payload.now))) }
        ensures page { page_len self.new ≡ page_len self.old };
}

/// Bytes that are made part by part, so that they need not be stored as a whole.
pub trait Payload {
    /// All of them, in order.
    ghost bytes: { Self → List ℕ };

    /// Fills `out` with the bytes from `at` on.
    fn fill(&self, at: usize, out: &mut [u8])
        requires { at + length out.old ≤ length (bytes self.now) }
        ensures { out.new ≡ take (length out.old) (drop at (bytes self.now)) };
}

impl Payload for &[u8] {
    ghost bytes = { λ s. s.now };

    fn fill(&self, at: usize, out: &mut [u8]) {
        out.copy_from_slice(&self[at..at + out.len()]);
    }
}
