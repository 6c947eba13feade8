//! The bus that a host talks to.

ghost use Rattle.std.specs.Prelude.{◌≡◌, ◌<◌, ℕ, List, length, slice_set};
ghost use Rattle.nv_register.specs.RegisterBank.{value_at, with_register_at};
ghost use Rattle.nv_bus.specs.Bus.{BusValue, IsBus, bank_at, state_written};
ghost use Rattle.nv_bus.specs.Turn.{TakesCount, Turn};

use nv_host::PagedMemory;

/// A bus to the controllers of a subsystem: their registers, and their turns over the host's
/// memory.
pub trait Bus {
    // The subsystem, and each controller's registers and rings.
    ghost meaning: { Self → BusValue };

    // What a bus says of a write, with the bus before and after it, of a read, and of a turn, with
    // the bus and the memory's bytes before and after it, the greatest number of entries and how
    // many were taken. Most buses say nothing. Code for every bus learns these only by making the
    // call, so a contract that states such calls one after another says that they were made, in
    // this order.
    ghost was_written: { Self → ℕ → ℕ → ℕ → Self → Type 0 } = { λ _ _ _ _ _. Unit {0} };

    ghost was_read: { Self → ℕ → ℕ → ℕ → Type 0 } = { λ _ _ _ _. Unit {0} };

    ghost was_turned: { Self → List ℕ → ℕ → ℕ → ℕ → Self → List ℕ → Type 0 } = { λ _ _ _ _ _ _ _. Unit {0} };

    /// Returns the number of controllers.
    fn controllers(&self) -> u16
        ensures { result ≡ length (meaning self.now).banks };

    /// Returns the dword of a controller's registers at an offset in bytes, or 0 if no register
    /// begins there.
    fn read32(&self, ctrl: u16, offset: u32) -> u32
        requires { ctrl < length (meaning self.now).banks }
        ensures value { result ≡ value_at (bank_at (meaning self.now).banks ctrl) offset }
        ensures read { was_read self.now ctrl offset result };

    /// Writes the dword of a controller's registers at an offset in bytes. A write that clears an
    /// EN that was 1 resets the controller; any other write leaves the subsystem as it was. Section
    /// "Controller Level Reset".
    fn write32(&mut self, ctrl: u16, offset: u32, dword: u32)
        requires { ctrl < length (meaning self.old).banks }
        ensures state { (meaning self.new).state
            ≡ state_written (meaning self.old) ctrl offset dword }
        ensures banks { (meaning self.new).banks ≡ slice_set (meaning self.old).banks ctrl
            (with_register_at (bank_at (meaning self.old).banks ctrl) offset dword) }
        ensures bus { IsBus (meaning self.old) → IsBus (meaning self.new) }
        ensures written { was_written self.old ctrl offset dword self.new };

    /// Takes at most `most` entries from a controller's submission queue, and returns how many it
    /// took. Each gets one completion. In the memory, only the bytes of its data and the slot of
    /// its completion change. None is taken if the controller isn't ready or has a fatal status.
    fn turn<M: PagedMemory>(&mut self, ctrl: u16, mem: &mut M, most: u16) -> u16
        requires ctrl { ctrl < length (meaning self.old).banks }
        requires bus { IsBus (meaning self.old) }
        ensures turn { Turn (M.page_len mem.old) ctrl most result
            (meaning self.old) (M.bytes mem.old) (meaning self.new) (M.bytes mem.new) }
        ensures count { TakesCount (M.page_len mem.old) (length (M.bytes mem.old)) most
            (bank_at (meaning self.old).banks ctrl) result (bank_at (meaning self.new).banks ctrl) }
        ensures bus { IsBus (meaning self.new) }
        ensures len { length (M.bytes mem.new) ≡ length (M.bytes mem.old) }
        ensures page { M.page_len mem.new ≡ M.page_len mem.old }
        ensures turned { was_turned self.old (M.bytes mem.old) ctrl most result
            self.new (M.bytes mem.new) };
}
