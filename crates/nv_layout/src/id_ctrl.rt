//! The Identify Controller data structure.

use crate::parts::{
    bytes_at, clear, put_bytes, put_u8, put_u16, put_u24, put_u32, put_u128, to_bits, u8_at,
    u16_at, u24_at, u32_at, u128_at,
};

/// A controller's identity, limits and capabilities. Section "Identify Controller data structure
/// (CNS 01h)".
#[derive(Clone, Copy, Debug, PartialEq, Eq)]
pub struct IdCtrl {
    /// PCI Vendor ID.
    pub vid: u16,
    /// PCI Subsystem Vendor ID.
    pub ssvid: u16,
    /// Serial Number, in ASCII.
    pub sn: [u8; 20],
    /// Model Number, in ASCII.
    pub mn: [u8; 40],
    /// Firmware Revision, in ASCII.
    pub fr: [u8; 8],
    /// Recommended Arbitration Burst.
    pub rab: u8,
    /// IEEE OUI Identifier, 24 bits.
    pub ieee: u32,
    /// Controller Multi-Path I/O and Namespace Sharing Capabilities.
    pub cmic: u8,
    /// Maximum Data Transfer Size, as a power of two in units of the smallest page. 0 means no
    /// limit.
    pub mdts: u8,
    /// Controller ID.
    pub cntlid: u16,
    /// Version.
    pub ver: u32,
    /// Optional Admin Command Support.
    pub oacs: u16,
    /// Firmware Updates.
    pub frmw: u8,
    /// Log Page Attributes.
    pub lpa: u8,
    /// Error Log Page Entries, less one.
    pub elpe: u8,
    /// Number of Power States Support, less one.
    pub npss: u8,
    /// Warning Composite Temperature Threshold, in kelvins.
    pub wctemp: u16,
    /// Critical Composite Temperature Threshold, in kelvins.
    pub cctemp: u16,
    /// Total NVM Capacity, in bytes.
    pub tnvmcap: u128,
    /// Unallocated NVM Capacity, in bytes.
    pub unvmcap: u128,
    /// Submission Queue Entry Size.
    pub sqes: u8,
    /// Completion Queue Entry Size.
    pub cqes: u8,
    /// Number of Namespaces.
    pub nn: u32,
    /// Optional NVM Command Support.
    pub oncs: u16,
    /// Format NVM Attributes.
    pub fna: u8,
    /// Volatile Write Cache.
    pub vwc: u8,
    /// NVM Subsystem NVMe Qualified Name, in UTF-8.
    pub subnqn: [u8; 256],
}

impl IdCtrl {
    ghost use Rattle.std.specs.Prelude.{◌≡◌};
    ghost use Rattle.nv_layout.specs.IdCtrl.{bytes_of_id_ctrl, id_ctrl_of_bytes};

    /// Writes the data's bytes. The IEEE OUI is cut to its 24 bits.
    #[tactic(auto, unfolding(crate::specs::IdCtrl::bytes_of_id_ctrl))]
    pub fn put(&self, out: &mut [u8; 4096])
        ensures { out.new ≡ bytes_of_id_ctrl self.now }
    {
        clear(out);
        put_u16(out, 0, self.vid);
        put_u16(out, 2, self.ssvid);
        put_bytes(out, 4, &self.sn);
        put_bytes(out, 24, &self.mn);
        put_bytes(out, 64, &self.fr);
        put_u8(out, 72, self.rab);
        put_u24(out, 73, to_bits(self.ieee, 0, 24));
        put_u8(out, 76, self.cmic);
        put_u8(out, 77, self.mdts);
        put_u16(out, 78, self.cntlid);
        put_u32(out, 80, self.ver);
        put_u16(out, 256, self.oacs);
        put_u8(out, 260, self.frmw);
        put_u8(out, 261, self.lpa);
        put_u8(out, 262, self.elpe);
        put_u8(out, 263, self.npss);
        put_u16(out, 266, self.wctemp);
        put_u16(out, 268, self.cctemp);
        put_u128(out, 280, self.tnvmcap);
        put_u128(out, 296, self.unvmcap);
        put_u8(out, 512, self.sqes);
        put_u8(out, 513, self.cqes);
        put_u32(out, 516, self.nn);
        put_u16(out, 520, self.oncs);
        put_u8(out, 524, self.fna);
        put_u8(out, 525, self.vwc);
        put_bytes(out, 768, &self.subnqn);
    }

    /// Reads the data from its bytes.
    #[tactic(auto, unfolding(crate::specs::IdCtrl::id_ctrl_of_bytes))]
    pub fn get(bytes: &[u8; 4096]) -> IdCtrl
        ensures { result ≡ id_ctrl_of_bytes bytes.now }
    {
        IdCtrl {
            vid: u16_at(bytes, 0),
            ssvid: u16_at(bytes, 2),
            sn: bytes_at(bytes, 4),
            mn: bytes_at(bytes, 24),
            fr: bytes_at(bytes, 64),
            rab: u8_at(bytes, 72),
            ieee: u24_at(bytes, 73),
            cmic: u8_at(bytes, 76),
            mdts: u8_at(bytes, 77),
            cntlid: u16_at(bytes, 78),
            ver: u32_at(bytes, 80),
            oacs: u16_at(bytes, 256),
            frmw: u8_at(bytes, 260),
            lpa: u8_at(bytes, 261),
            elpe: u8_at(bytes, 262),
            npss: u8_at(bytes, 263),
            wctemp: u16_at(bytes, 266),
            cctemp: u16_at(bytes, 268),
            tnvmcap: u128_at(bytes, 280),
            unvmcap: u128_at(bytes, 296),
            sqes: u8_at(bytes, 512),
            cqes: u8_at(bytes, 513),
            nn: u32_at(bytes, 516),
            oncs: u16_at(bytes, 520),
            fna: u8_at(bytes, 524),
            vwc: u8_at(bytes, 525),
            subnqn: bytes_at(bytes, 768),
        }
    }
}
