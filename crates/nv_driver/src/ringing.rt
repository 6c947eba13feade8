//! How tail doorbells are written.

ghost use Rattle.std.specs.Prelude.{◌≡◌, ◌<◌, ℕ, List, length, slice_set};
ghost use Rattle.nv_register.specs.RegisterBank.{with_register_at};
ghost use Rattle.nv_bus.specs.Bus.{IsBus, bank_at};

use nv_bus::Bus;
use nv_host::PagedMemory;
use nv_register::offset;

/// A bus whose tail doorbells are written over a memory, as each is.
pub trait Ringing: Bus {
    // What is said of such a write: the bus before it, the memory's bytes, and the bus after it. As
    // with a write of a bus, code for every bus learns this only by making the call.
    ghost was_rung: { Self → List ℕ → Self → Type 0 };

    /// Writes the tail doorbell of a controller, whose new entries and their data are in the memory.
    fn ring<M: PagedMemory>(&mut self, ctrl: u16, mem: &M, tail: u16)
        requires { ctrl < length (Self.meaning self.old).banks }
        ensures state { (Self.meaning self.new).state ≡ (Self.meaning self.old).state }
        ensures banks { (Self.meaning self.new).banks ≡ slice_set (Self.meaning self.old).banks ctrl
            (with_register_at (bank_at (Self.meaning self.old).banks ctrl) 0x1000 tail) }
        ensures bus { IsBus (Self.meaning self.old) → IsBus (Self.meaning self.new) }
        ensures written { Self.was_written self.old ctrl 0x1000 tail self.new }
        ensures rung { was_rung self.old (M.bytes mem.now) self.new };
}

impl<B: Bus> Ringing for B {
    ghost was_rung = { λ _ _ _. Unit {0} };

    fn ring<M: PagedMemory>(&mut self, ctrl: u16, _mem: &M, tail: u16) {
        self.write32(ctrl, offset::TAIL_DOORBELL, u32::from(tail));
    }
}
