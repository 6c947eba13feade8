//! Submission queue entries.

use crate::parts::{bits_of, clear, put_u32, put_u64, to_bits, u32_at, u64_at};

/// A command as the host writes it to a submission queue. Section "Submission Queue Entry - Command
/// Format". The default is all zeros.
#[derive(Clone, Copy, Debug, Default, PartialEq, Eq)]
pub struct Sqe {
    /// Opcode.
    pub opcode: u8,
    /// Fused Operation, 2 bits.
    pub fuse: u8,
    /// PRP or SGL for Data Transfer, 2 bits.
    pub psdt: u8,
    /// Command Identifier.
    pub cid: u16,
    /// Namespace Identifier.
    pub nsid: u32,
    /// Metadata Pointer.
    pub mptr: u64,
    /// PRP Entry 1 of the data pointer.
    pub prp1: u64,
    /// PRP Entry 2 of the data pointer.
    pub prp2: u64,
    /// Command Dword 10.
    pub cdw10: u32,
    /// Command Dword 11.
    pub cdw11: u32,
    /// Command Dword 12.
    pub cdw12: u32,
    /// Command Dword 13.
    pub cdw13: u32,
    /// Command Dword 14.
    pub cdw14: u32,
    /// Command Dword 15.
    pub cdw15: u32,
}

impl Sqe {
    ghost use Rattle.std.specs.Prelude.{◌≡◌};
    ghost use Rattle.nv_layout.specs.Sqe.{bytes_of_sqe, sqe_of_bytes};

    /// Writes the entry's bytes. FUSE and PSDT are cut to their two bits.
    #[tactic(auto, unfolding(crate::specs::Sqe::bytes_of_sqe))]
    pub fn put(&self, out: &mut [u8; 64])
        ensures { out.new ≡ bytes_of_sqe self.now }
    {
        let dword0 = to_bits(self.opcode as u32, 0, 8)
            + to_bits(self.fuse as u32, 8, 2)
            + to_bits(self.psdt as u32, 14, 2)
            + to_bits(self.cid as u32, 16, 16);
        clear(out);
        put_u32(out, 0, dword0);
        put_u32(out, 4, self.nsid);
        put_u64(out, 16, self.mptr);
        put_u64(out, 24, self.prp1);
        put_u64(out, 32, self.prp2);
        put_u32(out, 40, self.cdw10);
        put_u32(out, 44, self.cdw11);
        put_u32(out, 48, self.cdw12);
        put_u32(out, 52, self.cdw13);
        put_u32(out, 56, self.cdw14);
        put_u32(out, 60, self.cdw15);
    }

    /// Reads an entry from its bytes.
    #[tactic(auto, unfolding(crate::specs::Sqe::sqe_of_bytes))]
    pub fn get(bytes: &[u8; 64]) -> Sqe
        ensures { result ≡ sqe_of_bytes bytes.now }
    {
        let dword0 = u32_at(bytes, 0);
        Sqe {
            opcode: bits_of(dword0, 0, 8) as u8,
            fuse: bits_of(dword0, 8, 2) as u8,
            psdt: bits_of(dword0, 14, 2) as u8,
            cid: bits_of(dword0, 16, 16) as u16,
            nsid: u32_at(bytes, 4),
            mptr: u64_at(bytes, 16),
            prp1: u64_at(bytes, 24),
            prp2: u64_at(bytes, 32),
            cdw10: u32_at(bytes, 40),
            cdw11: u32_at(bytes, 44),
            cdw12: u32_at(bytes, 48),
            cdw13: u32_at(bytes, 52),
            cdw14: u32_at(bytes, 56),
            cdw15: u32_at(bytes, 60),
        }
    }
}
