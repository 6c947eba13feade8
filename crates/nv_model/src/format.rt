//! Formats of logical blocks.

/// A format of logical blocks. Section "Identify Namespace data structure", LBA Format.
#[derive(Clone, Copy, Debug, PartialEq, Eq)]
pub struct Format {
    /// The size of a logical block as a power of two, 9 to 16.
    pub lbads: u8,
    /// The number of metadata bytes of a logical block.
    pub ms: u16,
    /// The relative performance, 0 to 3.
    pub rp: u8,
}
