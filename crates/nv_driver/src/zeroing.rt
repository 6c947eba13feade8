//! How completion rings are zeroed.

ghost use Rattle.std.specs.Prelude.{◌≡◌, ◌+◌, ◌*◌, ◌≤◌, ℕ, List, length, replicate};
ghost use Rattle.nv_host.specs.Bytes.{with_bytes};
ghost use Rattle.nv_queue.specs.Slots.{HoldsTags};

use nv_bus::Bus;
use nv_host::HostMemory;
use nv_queue::CompletionRing;

/// A bus for whose controllers completion rings are zeroed, as each is.
pub trait Zeroing {
    // What is said of zeroing a ring: the bus meanwhile, the ring's address and depth, and the
    // memory's bytes before and after it. As with a write of a bus, code for every bus learns this
    // only by making the call.
    ghost was_zeroed: { Self → ℕ → ℕ → List ℕ → List ℕ → Type 0 };

    /// Zeroes a completion ring, which must lie in the memory.
    fn zero<M: HostMemory>(&self, ring: &CompletionRing, mem: &mut M)
        requires { ring.now.base + 16 * ring.now.depth ≤ length (M.bytes mem.old) }
        ensures bytes { M.bytes mem.new ≡ with_bytes (M.bytes mem.old) ring.now.base
            (replicate (16 * ring.now.depth) 0) }
        ensures tags { HoldsTags (M.bytes mem.new) ring.now.base ring.now.depth 0 }
        ensures page { M.page_len mem.new ≡ M.page_len mem.old }
        ensures zeroed { was_zeroed self.now ring.now.base ring.now.depth
            (M.bytes mem.old) (M.bytes mem.new) };
}

impl<B: Bus> Zeroing for B {
    ghost was_zeroed = { λ _ _ _ _ _. Unit {0} };

    fn zero<M: HostMemory>(&self, ring: &CompletionRing, mem: &mut M) {
        ring.zero(mem);
    }
}
