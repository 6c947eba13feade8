//! What a controller says about itself.

/// The numbers that a controller reports about itself. Section "Identify Controller data
/// structure".
#[derive(Clone, Copy, Debug, PartialEq, Eq)]
pub struct IdentityNumbers {
    /// The vendor in the PCI register.
    pub vid: u16,
    /// The subsystem vendor in the PCI register.
    pub ssvid: u16,
    /// The recommended arbitration burst, as a power of two.
    pub rab: u8,
    /// The vendor's identifier of 24 bits.
    pub ieee: u32,
    /// The greatest transfer, as a power of two in units of the smallest page, from 2 to 8.
    pub mdts: u8,
    /// The number of entries of the error log, less one.
    pub elpe: u8,
    /// The composite temperature from which on a warning is due, in kelvins.
    pub wctemp: u16,
    /// The composite temperature from which on the state is critical, in kelvins.
    pub cctemp: u16,
    /// The volatile write cache: bit 0 says whether there is one.
    pub vwc: u8,
}

/// What a controller reports about itself. Section "Identify Controller data structure".
#[derive(Debug, Drop)]
pub struct Identity {
    /// The identifier of the controller, 0 to 65519.
    pub cntlid: u16,
    /// The serial number, 1 to 20 bytes.
    pub sn: String,
    /// The model number, 1 to 40 bytes.
    pub mn: String,
    /// The firmware revision, 1 to 8 bytes.
    pub fr: String,
    pub numbers: IdentityNumbers,
    /// Whether Format NVM can erase by destroying a key.
    pub crypto_erase: bool,
}
