//! The Identify Namespace data structure.

use crate::parts::{
    bits_of, clear, put_u8, put_u32, put_u32s, put_u64, put_u128, to_bits, u8_at, u32_at, u32s_at,
    u64_at, u128_at,
};

/// A format of a namespace's logical blocks. Section "Identify Namespace data structure (CNS
/// 00h)".
#[derive(Clone, Copy, Debug, PartialEq, Eq)]
pub struct Lbaf {
    /// Metadata Size, in bytes a logical block.
    pub ms: u16,
    /// LBA Data Size: a logical block has two to this power bytes.
    pub lbads: u8,
    /// Relative Performance, 2 bits.
    pub rp: u8,
}

const NO_LBAF: Lbaf = Lbaf {
    ms: 0,
    lbads: 0,
    rp: 0,
};

impl Lbaf {
    ghost use Rattle.std.specs.Prelude.{◌≡◌, map};
    ghost use Rattle.nv_layout.specs.IdNs.{bytes_of_lbaf, lbaf_of_bytes, lbaf_of_number};
    ghost use Rattle.nv_layout.specs.IdNs.{number_of_lbaf};

    fn number(&self) -> u32
        ensures { result ≡ number_of_lbaf self.now }
    {
        to_bits(self.ms as u32, 0, 16)
            + to_bits(self.lbads as u32, 16, 8)
            + to_bits(self.rp as u32, 24, 2)
    }

    fn from_number(number: u32) -> Lbaf
        ensures { result ≡ lbaf_of_number number }
    {
        Lbaf {
            ms: bits_of(number, 0, 16) as u16,
            lbads: bits_of(number, 16, 8) as u8,
            rp: bits_of(number, 24, 2) as u8,
        }
    }

    /// Writes the format's bytes. The relative performance is cut to its two bits.
    #[tactic(auto, unfolding(crate::specs::IdNs::bytes_of_lbaf))]
    pub fn put(&self, out: &mut [u8; 4])
        ensures { out.new ≡ bytes_of_lbaf self.now }
    {
        clear(out);
        put_u32(out, 0, self.number());
    }

    /// Reads a format from its bytes.
    #[tactic(auto, unfolding(crate::specs::IdNs::lbaf_of_bytes))]
    pub fn get(bytes: &[u8; 4]) -> Lbaf
        ensures { result ≡ lbaf_of_bytes bytes.now }
    {
        Lbaf::from_number(u32_at(bytes, 0))
    }

    // (a loop takes half the instructions of an array's `map`, which keeps a mark for each element)
    fn all_numbers(lbafs: &[Lbaf; 16]) -> [u32; 16]
        ensures { result ≡ map number_of_lbaf lbafs.now }
    {
        let mut numbers = [0; 16];
        for i in 0..16 {
            numbers[i] = lbafs[i].number();
        }
        numbers
    }

    fn all_from_numbers(numbers: &[u32; 16]) -> [Lbaf; 16]
        ensures { result ≡ map lbaf_of_number numbers.now }
    {
        let mut lbafs = [NO_LBAF; 16];
        for i in 0..16 {
            lbafs[i] = Lbaf::from_number(numbers[i]);
        }
        lbafs
    }
}

/// A namespace's capacity, formats and capabilities. Section "Identify Namespace data structure
/// (CNS 00h)".
#[derive(Clone, Copy, Debug, PartialEq, Eq)]
pub struct IdNs {
    /// Namespace Size, in logical blocks.
    pub nsze: u64,
    /// Namespace Capacity, in logical blocks.
    pub ncap: u64,
    /// Namespace Utilization, in logical blocks.
    pub nuse: u64,
    /// Namespace Features.
    pub nsfeat: u8,
    /// Number of LBA Formats, less one.
    pub nlbaf: u8,
    /// Formatted LBA Size: the format in use and where its metadata lies.
    pub flbas: u8,
    /// Metadata Capabilities.
    pub mc: u8,
    /// End-to-end Data Protection Capabilities.
    pub dpc: u8,
    /// End-to-end Data Protection Type Settings.
    pub dps: u8,
    /// Namespace Multi-path I/O and Namespace Sharing Capabilities.
    pub nmic: u8,
    /// NVM Capacity, in bytes.
    pub nvmcap: u128,
    /// LBA Format 0 to LBA Format 15 Support.
    pub lbafs: [Lbaf; 16],
}

impl IdNs {
    ghost use Rattle.std.specs.Prelude.{◌≡◌};
    ghost use Rattle.nv_layout.specs.IdNs.{bytes_of_id_ns, id_ns_of_bytes};

    /// Writes the data's bytes. The relative performance of a format is cut to its two bits.
    #[tactic(auto, unfolding(crate::specs::IdNs::bytes_of_id_ns))]
    pub fn put(&self, out: &mut [u8; 4096])
        ensures { out.new ≡ bytes_of_id_ns self.now }
    {
        clear(out);
        put_u64(out, 0, self.nsze);
        put_u64(out, 8, self.ncap);
        put_u64(out, 16, self.nuse);
        put_u8(out, 24, self.nsfeat);
        put_u8(out, 25, self.nlbaf);
        put_u8(out, 26, self.flbas);
        put_u8(out, 27, self.mc);
        put_u8(out, 28, self.dpc);
        put_u8(out, 29, self.dps);
        put_u8(out, 30, self.nmic);
        put_u128(out, 48, self.nvmcap);
        put_u32s(out, 128, &Lbaf::all_numbers(&self.lbafs));
    }

    /// Reads the data from its bytes.
    #[tactic(auto, unfolding(crate::specs::IdNs::id_ns_of_bytes))]
    pub fn get(bytes: &[u8; 4096]) -> IdNs
        ensures { result ≡ id_ns_of_bytes bytes.now }
    {
        IdNs {
            nsze: u64_at(bytes, 0),
            ncap: u64_at(bytes, 8),
            nuse: u64_at(bytes, 16),
            nsfeat: u8_at(bytes, 24),
            nlbaf: u8_at(bytes, 25),
            flbas: u8_at(bytes, 26),
            mc: u8_at(bytes, 27),
            dpc: u8_at(bytes, 28),
            dps: u8_at(bytes, 29),
            nmic: u8_at(bytes, 30),
            nvmcap: u128_at(bytes, 48),
            lbafs: Lbaf::all_from_numbers(&u32s_at(bytes, 128)),
        }
    }
}
