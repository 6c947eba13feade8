//! Offsets of registers, in bytes. Sections "Register Definition" and, for the doorbells, whose
//! stride is four bytes, "Submission Queue y Tail Doorbell".

/// Controller Capabilities, bits 31:0.
pub const CAP_LOW: u32 = 0x00;

/// Controller Capabilities, bits 63:32.
pub const CAP_HIGH: u32 = 0x04;

/// Version.
pub const VS: u32 = 0x08;

/// Controller Configuration.
pub const CC: u32 = 0x14;

/// Controller Status.
pub const CSTS: u32 = 0x1c;

/// Admin Queue Attributes.
pub const AQA: u32 = 0x24;

/// Admin Submission Queue Base Address, bits 31:0.
pub const ASQ_LOW: u32 = 0x28;

/// Admin Submission Queue Base Address, bits 63:32.
pub const ASQ_HIGH: u32 = 0x2c;

/// Admin Completion Queue Base Address, bits 31:0.
pub const ACQ_LOW: u32 = 0x30;

/// Admin Completion Queue Base Address, bits 63:32.
pub const ACQ_HIGH: u32 = 0x34;

/// Submission Queue 0 Tail Doorbell.
pub const TAIL_DOORBELL: u32 = 0x1000;

/// Completion Queue 0 Head Doorbell.
pub const HEAD_DOORBELL: u32 = 0x1004;
