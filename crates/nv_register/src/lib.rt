//! The registers of a controller, by dword, and the rings of its admin queue pair, which they
//! define.
//!
//! A [`RegisterBank`] is what a host sees of one controller: dwords at offsets, each with its own
//! rule for reads and writes. Setting EN with valid values creates both rings, and clearing it
//! removes them:
//!
//! ```
//! let mut bank = RegisterBank::new();
//! bank.write32(0x24, 0x0003_0003);    // AQA: four entries each
//! bank.write32(0x28, 0x0000_1000);    // ASQ
//! bank.write32(0x30, 0x0000_2000);    // ACQ
//! bank.write32(0x14, 0x0046_0001);    // CC: pages of 4,096 bytes, EN
//! let ready = bank.read32(0x1c) == 1; // CSTS.RDY
//! bank.write32(0x1000, 1);            // one command is submitted
//! ```
//!
//! Sections are named as in the NVM Express Base Specification, revision 1.4.
#![tactic(auto)]

pub mod offset;
mod readiness;
mod register;
mod register_bank;
mod rings;

pub use readiness::Readiness;
pub use register::{
    AdminQueueAttributes, ControllerConfiguration, ControllerStatus, Register, Sizes,
};
pub use register_bank::RegisterBank;
pub use rings::Rings;
