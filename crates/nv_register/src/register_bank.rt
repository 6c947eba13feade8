//! What a host reads and writes of one controller.

ghost use Rattle.std.specs.Prelude.{◌≡◌, ◌≤◌};
ghost use Rattle.nv_register.specs.RegisterBank.{is_queue, new_bank};
ghost use Rattle.nv_register.specs.RegisterBank.{stops_at, value_at, with_cc, with_high, with_low};
ghost use Rattle.nv_register.specs.RegisterBank.{with_register_at};

use crate::offset;
use crate::readiness::Readiness;
use crate::register::{
    AdminQueueAttributes, ControllerConfiguration, ControllerStatus, Register, Sizes,
};
use crate::rings::Rings;
use nv_queue::{Fetch, Post};

/// CAP: queues of at most 4,096 entries, contiguous, doorbells next to each other, the NVM command
/// set, and pages of 4,096 to 65,536 bytes. Section "Controller Capabilities".
const CAP_LOW: u32 = 0x0101_0fff;

const CAP_HIGH: u32 = 0x0040_0020;

/// VS: revision 1.4. Section "Version".
const VS: u32 = 0x0001_0400;

/// The registers of one controller, and the rings that they make when it is ready.
#[derive(Drop)]
pub struct RegisterBank {
    /// The fields of CC other than EN.
    pub sizes: Sizes,
    pub readiness: Readiness,
    pub aqa: AdminQueueAttributes,
    /// Admin Submission Queue Base Address.
    pub asq: u64,
    /// Admin Completion Queue Base Address.
    pub acq: u64,
}

/// Replaces the low dword of an address.
fn low_dword_set(address: u64, dword: u32) -> u64
    ensures { result ≡ with_low address dword }
{
    (address >> 32 << 32) + dword as u64
}

/// Replaces the high dword of an address.
fn high_dword_set(address: u64, dword: u32) -> u64
    ensures { result ≡ with_high address dword }
{
    ((dword as u64) << 32) + address % (1 << 32)
}

/// Returns whether a queue begins at a page and has 2 to 4,096 entries.
fn is_queue(sizes: Sizes, base: u64, less_one: u16) -> bool
    requires { sizes.mps ≤ 4 }
    ensures { result ≡ is_queue sizes base less_one }
{
    base % u64::from(sizes.page_size()) == 0 && less_one >= 1 && less_one <= 4095
}

impl RegisterBank {
    /// Creates the registers as they are after power on, with the controller not enabled.
    pub fn new() -> RegisterBank
        ensures { result ≡ new_bank }
    {
        RegisterBank {
            sizes: Sizes {
                mps: 0,
                iosqes: 0,
                iocqes: 0,
            },
            readiness: Readiness::Off,
            aqa: AdminQueueAttributes { asqs: 0, acqs: 0 },
            asq: 0,
            acq: 0,
        }
    }

    /// Returns the dword at an offset in bytes, or 0 if no register begins there. Doorbells read 0.
    pub fn read32(&self, offset: u32) -> u32
        ensures { result ≡ value_at self.now offset }
    {
        let Some(register) = Register::at(offset) else {
            return 0;
        };
        match register {
            Register::CapLow => CAP_LOW,
            Register::CapHigh => CAP_HIGH,
            Register::Vs => VS,
            Register::Cc => {
                let configuration = ControllerConfiguration {
                    en: self.readiness.is_enabled(),
                    sizes: self.sizes,
                };
                configuration.dword()
            }
            Register::Csts => {
                let status = ControllerStatus {
                    rdy: self.readiness.is_ready(),
                    cfs: self.readiness.is_fatal(),
                };
                status.dword()
            }
            Register::Aqa => self.aqa.dword(),
            Register::AsqLow => (self.asq % (1 << 32)) as u32,
            Register::AsqHigh => (self.asq >> 32) as u32,
            Register::AcqLow => (self.acq % (1 << 32)) as u32,
            Register::AcqHigh => (self.acq >> 32) as u32,
            Register::TailDoorbell | Register::HeadDoorbell => 0,
        }
    }

    /// Performs a write to CC. While EN is 1, only EN changes. Clearing it clears RDY and CFS, and
    /// setting it creates the rings that the registers describe, or sets CFS if they describe none.
    fn configure(&mut self, cc: ControllerConfiguration)
        ensures { self.new ≡ with_cc self.old cc }
    {
        if self.readiness.is_enabled() {
            if !cc.en {
                self.readiness = Readiness::Off;
            }
            return;
        }
        self.sizes = cc.sizes;
        if !cc.en {
            return;
        }
        let can_start = self.sizes.mps <= 4
            && is_queue(self.sizes, self.asq, self.aqa.asqs)
            && is_queue(self.sizes, self.acq, self.aqa.acqs);
        self.readiness = if can_start {
            Readiness::Ready {
                rings: Rings {
                    page_size: self.sizes.page_size(),
                    submission: Fetch::new(self.asq, self.aqa.asqs + 1),
                    completion: Post::new(self.acq, self.aqa.acqs + 1),
                },
                fatal: false,
            }
        } else {
            Readiness::Failed
        };
    }

    /// Returns whether a write of a dword at an offset in bytes clears an EN that is 1, which
    /// resets the controller. Section "Controller Configuration".
    pub fn stops_at(&self, offset: u32, dword: u32) -> bool
        ensures { result ≡ stops_at self.now offset dword }
    {
        offset == offset::CC
            && self.readiness.is_enabled()
            && !ControllerConfiguration::of(dword).en
    }

    /// Writes the dword at an offset in bytes. The write is ignored if no register begins there or
    /// if the register is read-only. The registers of the admin queues don't change while EN is 1,
    /// and doorbells are ignored if the controller is not ready.
    pub fn write32(&mut self, offset: u32, dword: u32)
        ensures { self.new ≡ with_register_at self.old offset dword }
    {
        let Some(register) = Register::at(offset) else {
            return;
        };
        match register {
            Register::CapLow | Register::CapHigh | Register::Vs | Register::Csts => {}
            Register::Cc => self.configure(ControllerConfiguration::of(dword)),
            Register::Aqa
            | Register::AsqLow
            | Register::AsqHigh
            | Register::AcqLow
            | Register::AcqHigh
                if self.readiness.is_enabled() => {}
            Register::Aqa => self.aqa = AdminQueueAttributes::of(dword),
            Register::AsqLow => self.asq = low_dword_set(self.asq, dword),
            Register::AsqHigh => self.asq = high_dword_set(self.asq, dword),
            Register::AcqLow => self.acq = low_dword_set(self.acq, dword),
            Register::AcqHigh => self.acq = high_dword_set(self.acq, dword),
            Register::TailDoorbell => {
                if let Readiness::Ready { rings, .. } = &mut self.readiness {
                    rings.submission.tail(dword);
                }
            }
            Register::HeadDoorbell => {
                if let Readiness::Ready { rings, .. } = &mut self.readiness {
                    rings.completion.head(dword);
                }
            }
        }
    }
}
