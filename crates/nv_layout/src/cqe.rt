//! Completion queue entries, and the status in them.

use crate::parts::{bits_of, clear, put_u16, put_u32, to_bits, u16_at, u32_at};
use std::fmt;

/// A completion as the controller posts it to a completion queue. Section "Completion Queue Entry".
#[derive(Clone, Copy, Debug, PartialEq, Eq)]
pub struct Cqe {
    /// Dword 0, whose meaning depends on the command.
    pub command_specific: u32,
    /// SQ Head Pointer.
    pub sq_head: u16,
    /// SQ Identifier.
    pub sq_identifier: u16,
    /// Command Identifier.
    pub cid: u16,
    /// Phase Tag.
    pub phase: bool,
    /// Status Field.
    pub status: Status,
}

impl Cqe {
    ghost use Rattle.std.specs.Prelude.{◌≡◌};
    ghost use Rattle.nv_layout.specs.Cqe.{bytes_of_cqe, cqe_of_bytes};

    /// Writes the entry's bytes. The status code type is cut to its three bits, and the retry delay
    /// to its two.
    #[tactic(auto, unfolding(crate::specs::Cqe::bytes_of_cqe))]
    pub fn put(&self, out: &mut [u8; 16])
        ensures { out.new ≡ bytes_of_cqe self.now }
    {
        let dword3 = to_bits(self.cid as u32, 0, 16)
            + to_bits(self.phase as u32, 16, 1)
            + to_bits(self.status.number() as u32, 17, 15);
        clear(out);
        put_u32(out, 0, self.command_specific);
        put_u16(out, 8, self.sq_head);
        put_u16(out, 10, self.sq_identifier);
        put_u32(out, 12, dword3);
    }

    /// Reads an entry from its bytes.
    #[tactic(auto, unfolding(crate::specs::Cqe::cqe_of_bytes))]
    pub fn get(bytes: &[u8; 16]) -> Cqe
        ensures { result ≡ cqe_of_bytes bytes.now }
    {
        let dword3 = u32_at(bytes, 12);
        Cqe {
            command_specific: u32_at(bytes, 0),
            sq_head: u16_at(bytes, 8),
            sq_identifier: u16_at(bytes, 10),
            cid: bits_of(dword3, 0, 16) as u16,
            phase: bits_of(dword3, 16, 1) == 1,
            status: Status::from_number(bits_of(dword3, 17, 15) as u16),
        }
    }
}

/// The outcome of a command: the 15 bits above the phase tag in a completion queue entry. Section
/// "Status Field Definition".
#[derive(Clone, Copy, Debug, PartialEq, Eq)]
pub struct Status {
    /// Status Code.
    pub sc: u8,
    /// Status Code Type, 3 bits.
    pub sct: u8,
    /// Command Retry Delay, 2 bits.
    pub crd: u8,
    /// More: the Error Information log has more information about this command.
    pub more: bool,
    /// Do Not Retry.
    pub dnr: bool,
}

impl Status {
    ghost use Rattle.std.specs.Prelude.{◌≡◌, ◌↔◌, IsTrue};
    ghost use Rattle.nv_layout.specs.Status.{number_of_status, status_of_number};

    /// Successful Completion.
    pub const SUCCESS: Status = Status {
        sc: 0,
        sct: 0,
        crd: 0,
        more: false,
        dnr: false,
    };

    /// Returns whether the command was accepted: status code 0 of the generic type. Section
    /// "Generic Command Status Definition".
    pub fn is_success(self) -> bool
        ensures { IsTrue result ↔ ((self.sct ≡ 0) × (self.sc ≡ 0)) }
    {
        self.sct == 0 && self.sc == 0
    }

    /// Returns the field as a number of 15 bits. The type is cut to its three bits, and the delay
    /// to its two.
    #[tactic(auto, unfolding(crate::specs::Status::number_of_status))]
    pub fn number(self) -> u16
        ensures { result ≡ number_of_status self }
    {
        let number = to_bits(self.sc as u32, 0, 8)
            + to_bits(self.sct as u32, 8, 3)
            + to_bits(self.crd as u32, 11, 2)
            + to_bits(self.more as u32, 13, 1)
            + to_bits(self.dnr as u32, 14, 1);
        number as u16
    }

    /// Returns the field with this number. Bit 15 isn't part of it and is ignored.
    #[tactic(auto, unfolding(crate::specs::Status::status_of_number))]
    pub fn from_number(number: u16) -> Status
        ensures { result ≡ status_of_number number }
    {
        let number = number as u32;
        Status {
            sc: bits_of(number, 0, 8) as u8,
            sct: bits_of(number, 8, 3) as u8,
            crd: bits_of(number, 11, 2) as u8,
            more: bits_of(number, 13, 1) == 1,
            dnr: bits_of(number, 14, 1) == 1,
        }
    }
}

/// Writes the number, such as `0x600b`.
impl fmt::Display for Status {
    ghost use Rattle.std.specs.Prelude.{Some};
    ghost use Rattle.nv_layout.specs.Status.{status_text};

    ghost output = { λ status. Some (status_text status) };

    fn fmt<W: fmt::Write>(&self, f: &mut fmt::Formatter<W>) -> fmt::Result {
        write!(f, "0x{:x}", self.number())
    }
}
