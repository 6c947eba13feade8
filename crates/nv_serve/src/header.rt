//! The header of a request.

ghost use Rattle.std.specs.Prelude.{◌≡◌, ◌≤◌, ◌↔◌, IsTrue, true};
ghost use Rattle.nv_layout.specs.Sqe.{SqeFits, sqe_of_bytes};
ghost use Rattle.nv_serve.specs.Header.{header_of, kind_of, most_data, sends_data, sent_length};
ghost use Rattle.nv_serve.specs.Header.{wanted_length};

use byteorder::{ByteOrder, LittleEndian};
use nv_layout::{Sqe, bits_of};

/// The size of a request's header, in bytes.
pub const HEADER_SIZE: usize = 72;

/// The greatest length of a request's data, and of an answer's, in bytes.
pub const MOST_DATA: u32 = 1_048_576;

/// The purpose of a request.
#[derive(Clone, Copy, Debug, PartialEq, Eq)]
pub enum Kind {
    /// 0: sends an entry.
    Entry,
    /// 1: resets the controller.
    Reset,
    /// 2: asks how many controllers there are, and which namespaces of this one are active.
    List,
    /// Any other number.
    Unknown,
}

impl From<u16> for Kind {
    ghost from_gives = { λ number kind. kind ≡ kind_of number };

    fn from(number: u16) -> Kind {
        match number {
            0 => Kind::Entry,
            1 => Kind::Reset,
            2 => Kind::List,
            _ => Kind::Unknown,
        }
    }
}

/// The first 72 bytes of a request, little-endian: controller, kind, length and entry.
#[derive(Clone, Copy, Debug, PartialEq, Eq)]
pub struct Header {
    pub controller: u16,
    pub kind: Kind,
    /// How many bytes of data follow if the host sends data, and otherwise how many are wanted.
    pub length: u32,
    /// A submission queue entry. The driver sets its command identifier and its data pointer.
    pub entry: Sqe,
}

/// Reads an entry. Each of its fields fits its bits.
#[tactic(auto, unfolding(nv_layout::specs::Sqe::sqe_of_bytes))]
fn read_entry(bytes: &[u8; 64]) -> Sqe
    ensures value { result ≡ sqe_of_bytes bytes.now }
    ensures fits { SqeFits result }
{
    Sqe::get(bytes)
}

impl Header {
    /// Reads a header from its bytes.
    #[tactic(auto, unfolding(crate::specs::Header::header_of, nv_layout::specs::Parts::number_at))]
    pub fn get(bytes: &[u8; 72]) -> Header
        ensures value { result ≡ header_of bytes.now }
        ensures fits { SqeFits result.entry }
    {
        let mut entry = [0; 64];
        entry.copy_from_slice(&bytes[8..72]);
        Header {
            controller: LittleEndian::read_u16(bytes),
            kind: Kind::from(LittleEndian::read_u16(&bytes[2..])),
            length: LittleEndian::read_u32(&bytes[4..]),
            entry: read_entry(&entry),
        }
    }

    /// Returns whether the host sends data with the entry, which is bit 0 of its opcode. Section
    /// "Submission Queue Entry".
    fn sends_data(&self) -> bool
        ensures { result ≡ sends_data self.now.entry }
    {
        bits_of(u32::from(self.entry.opcode), 0, 1) == 1
    }

    /// Returns how many bytes of data follow the header.
    pub fn sent_length(&self) -> u32
        ensures length { result ≡ sent_length self.now }
        ensures few { result ≤ self.now.length }
    {
        match self.kind {
            Kind::Entry => { if self.sends_data() { self.length } else { 0 } }
            Kind::Reset | Kind::List | Kind::Unknown => 0,
        }
    }

    /// Returns how many bytes of data the answer has.
    pub fn wanted_length(&self) -> u32
        ensures length { result ≡ wanted_length self.now }
        ensures few { result ≤ self.now.length }
    {
        match self.kind {
            Kind::Entry => { if self.sends_data() { 0 } else { self.length } }
            Kind::List => self.length,
            Kind::Reset | Kind::Unknown => 0,
        }
    }
}
