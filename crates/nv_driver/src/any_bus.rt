//! A bus that may break its contract.

ghost use Rattle.std.specs.Prelude.{◌≡◌, ◌<◌, ℕ, length, slice_set};
ghost use Rattle.nv_register.specs.RegisterBank.{value_at, with_register_at};
ghost use Rattle.nv_bus.specs.Bus.{BusValue, IsBus, bank_at, state_written};
ghost use Rattle.nv_driver.specs.BringingUp.{Still};

use nv_bus::Bus;

/// A bus, which may also break its contract. What a register holds is then known only from reading
/// it. Each bus is one.
pub(crate) trait AnyBus {
    // Whether it keeps the contract of a bus.
    ghost is_lawful: { Type 0 };

    ghost meaning: { Self → BusValue };

    // What is said of a write and of a read, with the bus before and after it.
    ghost was_written: { Self → ℕ → ℕ → ℕ → Self → Type 0 };

    ghost was_read: { Self → ℕ → ℕ → ℕ → Self → Type 0 };

    /// Returns the number of controllers.
    fn count(&self) -> u16
        ensures { result ≡ length (meaning self.now).banks };

    /// Reads a register.
    fn read(&mut self, ctrl: u16, offset: u32) -> u32
        requires { is_lawful → ctrl < length (meaning self.old).banks }
        ensures value { is_lawful
            → result ≡ value_at (bank_at (meaning self.old).banks ctrl) offset }
        ensures same { is_lawful → meaning self.new ≡ meaning self.old }
        ensures read { was_read self.old ctrl offset result self.new };

    /// Writes a register.
    fn write(&mut self, ctrl: u16, offset: u32, dword: u32)
        requires { is_lawful → ctrl < length (meaning self.old).banks }
        ensures state { is_lawful → (meaning self.new).state
            ≡ state_written (meaning self.old) ctrl offset dword }
        ensures banks { is_lawful → (meaning self.new).banks
            ≡ slice_set (meaning self.old).banks ctrl
            (with_register_at (bank_at (meaning self.old).banks ctrl) offset dword) }
        ensures bus { is_lawful → IsBus (meaning self.old) → IsBus (meaning self.new) }
        ensures written { was_written self.old ctrl offset dword self.new };
}

impl<B: Bus> AnyBus for B {
    ghost is_lawful = { Unit {0} };

    ghost meaning = { B.meaning };

    ghost was_written = { B.was_written };

    ghost was_read = { Still B.was_read };

    fn count(&self) -> u16 {
        self.controllers()
    }

    fn read(&mut self, ctrl: u16, offset: u32) -> u32 {
        self.read32(ctrl, offset)
    }

    fn write(&mut self, ctrl: u16, offset: u32, dword: u32) {
        self.write32(ctrl, offset, dword);
    }
}
