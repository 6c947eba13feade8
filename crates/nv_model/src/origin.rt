//! Where commands come from.

/// The number of command identifiers that a host uses in turn: 0 to FFFEh. FFFFh stands for no
/// command. Section "Error Information (Log Identifier 01h)".
pub const CID_COUNT: u16 = 65_535;

/// Where a command came from: its command identifier, and the phase tag that its completion will
/// have.
#[derive(Clone, Copy, Debug, PartialEq, Eq)]
pub struct Origin {
    pub cid: u16,
    pub phase: bool,
}
