//! Ranges of the memory, which are read and written page by page.

ghost use Rattle.std.specs.Prelude.{◌≡◌, ◌+◌, ◌*◌, ◌<◌, ◌≤◌, ◌^◌, drop, length, take};
ghost use Rattle.nv_host.specs.Bytes.{bytes_at, with_bytes};
ghost use Rattle.nv_host.specs.Pages.{HasPage};

use nv_host::{PageNo, PagedMemory, Payload};
use std::cmp::min;

/// Bytes of one page that follow one another.
#[derive(Clone, Copy)]
pub struct Part {
    pub page: PageNo,
    /// Where the first one lies in the page.
    pub start: usize,
    /// How many there are.
    pub len: usize,
}

/// Returns the bytes of a range that lie in the page of its first byte.
#[tactic(auto, using(nv_host::proofs::PageLaws::page_size_bounds))]
pub(crate) fn first_part<M: PagedMemory>(mem: &M, addr: u64, len: usize) -> Part
    requires some { 0 < len }
    requires inside { addr + len ≤ length (M.bytes mem.now) }
    ensures place { result.page * M.page_len mem.now + result.start ≡ addr }
    ensures page { HasPage (M.bytes mem.now) (M.page_len mem.now) result.page }
    ensures within { result.start + result.len ≤ M.page_len mem.now }
    ensures some { 0 < result.len }
    ensures most { result.len ≤ len }
    ensures fits { addr + result.len < 2 ^ 64 }
{
    let page_size = u64::from(mem.page_size());
    // The range lies in the memory, so its page is at most the last one.
    let last = u64::from(mem.pages()) - 1;
    let start = addr % page_size;
    Part {
        page: min(addr / page_size, last) as PageNo,
        start: start as usize,
        len: min(len, (page_size - start) as usize),
    }
}

/// Reads the bytes from an address on. They lie in the memory.
pub(crate) fn read_range<M: PagedMemory>(mem: &M, addr: u64, out: &mut [u8])
    requires { addr + length out.old ≤ length (M.bytes mem.now) }
    ensures { out.new ≡ bytes_at (M.bytes mem.now) addr (length out.old) }
{
    let mut at = addr;
    let mut done = 0;
    while done < out.len() {
        let part = first_part(mem, at, out.len() - done);
        let page = mem.page(part.page);
        out[done..done + part.len].copy_from_slice(&page[part.start..part.start + part.len]);
        at += part.len as u64;
        done += part.len;
    }
}

/// Writes `len` bytes of a payload, from its byte `from` on, to the range that begins at an address.
/// The payload has these bytes, and the range lies in the memory.
pub(crate) fn write_range<M: PagedMemory, P: Payload>(
    mem: &mut M,
    addr: u64,
    payload: &P,
    from: usize,
    len: usize,
)
    requires inside { addr + len ≤ length (M.bytes mem.old) }
    requires has { from + len ≤ length (P.bytes payload.now) }
    requires limit { length (P.bytes payload.now) < 2 ^ 64 }
    ensures value { M.bytes mem.new
        ≡ with_bytes (M.bytes mem.old) addr (take len (drop from (P.bytes payload.now))) }
    ensures page { M.page_len mem.new ≡ M.page_len mem.old }
{
    let mut at = addr;
    let mut done = 0;
    while done < len {
        let part = first_part(mem, at, len - done);
        mem.fill(part.page, part.start, payload, from + done, part.len);
        at += part.len as u64;
        done += part.len;
    }
}
