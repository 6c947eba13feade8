//! Compares bytes of the host's memory with bytes of a namespace.

ghost use Rattle.std.specs.Prelude.{◌≡◌, ◌+◌, ◌≤◌, ◌↔◌, IsTrue, length};
ghost use Rattle.nv_host.specs.Bytes.{bytes_at};
ghost use Rattle.nv_prp.specs.Place.{LieIn, places, read_at};

use nv_host::{PagedMemory, size_of_memory};
use nv_prp::Spans;
use std::cmp::min;

/// How many bytes are compared at once.
const CHUNK: usize = 4096;

/// Returns whether the memory has these bytes from an address on. They are at most 4,096.
fn holds_chunk<M: PagedMemory>(mem: &M, address: u64, chunk: &[u8]) -> bool
    requires inside { address + length chunk.now ≤ length (M.bytes mem.now) }
    requires few { length chunk.now ≤ 4096 }
    ensures { IsTrue result
        ↔ (bytes_at (M.bytes mem.now) address (length chunk.now) ≡ chunk.now) }
{
    let mut room = [0; CHUNK];
    let found = &mut room[..chunk.len()];
    // The bytes lie in the memory.
    let _ = mem.load(address, found);
    &*found == chunk
}

/// Returns whether the memory has these bytes from an address on.

fn holds<M: PagedMemory>(mem: &M, address: u64, bytes: &[u8]) -> bool
    requires { address + length bytes.now ≤ length (M.bytes mem.now) }
    ensures { IsTrue result
        ↔ (bytes_at (M.bytes mem.now) address (length bytes.now) ≡ bytes.now) }
{
    // The sums can't overflow because the bytes lie in the memory.
    let _size = size_of_memory(mem);
    let mut done = 0;
    while done < bytes.len() {
        let end = done + min(bytes.len() - done, CHUNK);
        if !holds_chunk(mem, address + done as u64, &bytes[done..end]) {
            return false;
        }
        done = end;
    }
    true
}

/// Returns whether the spans of the memory hold these bytes.

#[tactic(auto, using(nv_prp::proofs::CopyLaws::lefts))]
pub(crate) fn are_held<M: PagedMemory>(mem: &M, spans: &Spans, bytes: &[u8]) -> bool
    requires inside { LieIn (length (M.bytes mem.now)) spans.now }
    requires len { length (places spans.now) ≡ length bytes.now }
    ensures { IsTrue result ↔ (read_at (M.bytes mem.now) (places spans.now) ≡ bytes.now) }
{
    let mut at = 0;
    for span in spans.as_slice() {
        let end = at + span.len as usize;
        if !holds(mem, span.address, &bytes[at..end]) {
            return false;
        }
        at = end;
    }
    true
}
