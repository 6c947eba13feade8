//! Which dword of the registers is at which offset, and the registers that have several fields.

ghost use Rattle.std.specs.Prelude.{◌≡◌, ◌≤◌};
ghost use Rattle.nv_register.specs.Dwords.{aqa_dword, aqa_of_dword, cc_dword, cc_of_dword, csts_dword};
ghost use Rattle.nv_register.specs.PageSize.{page_size_of};
ghost use Rattle.nv_register.specs.Register.{register_at};

use crate::offset;
use nv_layout::{bits_of, to_bits};

/// A dword of a controller's registers. Section "Register Definition".
#[derive(Clone, Copy, Debug, PartialEq, Eq)]
pub enum Register {
    /// Controller Capabilities, bits 31:0.
    CapLow,
    /// Controller Capabilities, bits 63:32.
    CapHigh,
    /// Version.
    Vs,
    /// Controller Configuration.
    Cc,
    /// Controller Status.
    Csts,
    /// Admin Queue Attributes.
    Aqa,
    /// Admin Submission Queue Base Address, bits 31:0.
    AsqLow,
    /// Admin Submission Queue Base Address, bits 63:32.
    AsqHigh,
    /// Admin Completion Queue Base Address, bits 31:0.
    AcqLow,
    /// Admin Completion Queue Base Address, bits 63:32.
    AcqHigh,
    /// Submission Queue 0 Tail Doorbell.
    TailDoorbell,
    /// Completion Queue 0 Head Doorbell.
    HeadDoorbell,
}

impl Register {
    /// Returns the register that begins at an offset in bytes, or none if none of these dwords
    /// does.
    pub fn at(address: u32) -> Option<Register>
        ensures { result ≡ register_at address }
    {
        match address {
            offset::CAP_LOW => Some(Register::CapLow),
            offset::CAP_HIGH => Some(Register::CapHigh),
            offset::VS => Some(Register::Vs),
            offset::CC => Some(Register::Cc),
            offset::CSTS => Some(Register::Csts),
            offset::AQA => Some(Register::Aqa),
            offset::ASQ_LOW => Some(Register::AsqLow),
            offset::ASQ_HIGH => Some(Register::AsqHigh),
            offset::ACQ_LOW => Some(Register::AcqLow),
            offset::ACQ_HIGH => Some(Register::AcqHigh),
            offset::TAIL_DOORBELL => Some(Register::TailDoorbell),
            offset::HEAD_DOORBELL => Some(Register::HeadDoorbell),
            _ => None,
        }
    }
}

/// The sizes of CC: of a page, and of the entries of I/O queues. Section "Controller
/// Configuration".
#[derive(Clone, Copy, Debug, PartialEq, Eq)]
pub struct Sizes {
    /// Memory Page Size, 4 bits: a page has two to this power times 4,096 bytes.
    pub mps: u8,
    /// I/O Submission Queue Entry Size, 4 bits.
    pub iosqes: u8,
    /// I/O Completion Queue Entry Size, 4 bits.
    pub iocqes: u8,
}

impl Sizes {
    /// Returns the size of a page in bytes, from 4,096 to 65,536.
    pub fn page_size(self) -> u32
        requires { self.mps ≤ 4 }
        ensures { result ≡ page_size_of self }
    {
        match self.mps {
            0 => 4096,
            1 => 8192,
            2 => 16384,
            3 => 32768,
            _ => 65536,
        }
    }
}

/// The bits of Controller Configuration (CC) that are kept. The other bits read 0. Section
/// "Controller Configuration".
#[derive(Clone, Copy, Debug, PartialEq, Eq)]
pub struct ControllerConfiguration {
    /// Enable.
    pub en: bool,
    pub sizes: Sizes,
}

impl ControllerConfiguration {
    /// Returns the register as a dword.
    pub fn dword(self) -> u32
        ensures { result ≡ cc_dword self }
    {
        to_bits(self.en as u32, 0, 1)
            + to_bits(self.sizes.mps as u32, 7, 4)
            + to_bits(self.sizes.iosqes as u32, 16, 4)
            + to_bits(self.sizes.iocqes as u32, 20, 4)
    }

    /// Returns the register with the value of a dword.
    pub fn of(dword: u32) -> ControllerConfiguration
        ensures { result ≡ cc_of_dword dword }
    {
        ControllerConfiguration {
            en: bits_of(dword, 0, 1) == 1,
            sizes: Sizes {
                mps: bits_of(dword, 7, 4) as u8,
                iosqes: bits_of(dword, 16, 4) as u8,
                iocqes: bits_of(dword, 20, 4) as u8,
            },
        }
    }
}

/// The bits of Controller Status (CSTS) that are reported. Section "Controller Status".
#[derive(Clone, Copy, Debug, PartialEq, Eq)]
pub struct ControllerStatus {
    /// Ready.
    pub rdy: bool,
    /// Controller Fatal Status.
    pub cfs: bool,
}

impl ControllerStatus {
    /// Returns the register as a dword.
    pub fn dword(self) -> u32
        ensures { result ≡ csts_dword self }
    {
        to_bits(self.rdy as u32, 0, 1) + to_bits(self.cfs as u32, 1, 1)
    }
}

/// Admin Queue Attributes (AQA): how many entries the queues have, each less one. Section "Admin
/// Queue Attributes".
#[derive(Clone, Copy, Debug, PartialEq, Eq)]
pub struct AdminQueueAttributes {
    /// Admin Submission Queue Size, 12 bits.
    pub asqs: u16,
    /// Admin Completion Queue Size, 12 bits.
    pub acqs: u16,
}

impl AdminQueueAttributes {
    /// Returns the register as a dword.
    pub fn dword(self) -> u32
        ensures { result ≡ aqa_dword self }
    {
        to_bits(self.asqs as u32, 0, 12) + to_bits(self.acqs as u32, 16, 12)
    }

    /// Returns the register with the value of a dword.
    pub fn of(dword: u32) -> AdminQueueAttributes
        ensures { result ≡ aqa_of_dword dword }
    {
        AdminQueueAttributes {
            asqs: bits_of(dword, 0, 12) as u16,
            acqs: bits_of(dword, 16, 12) as u16,
        }
    }
}
