//! The controllers of an NVM subsystem as a host sees them: their registers, and turns over the
//! host's memory, whatever it holds.
//!
//! This crate is the model itself. `nvme_controller` is a library around it for programs in C.
//!
//! A driver talks to a [`Bus`], and a [`Machine`] is a bus over a subsystem. Any entry in any
//! memory is answered: the controller does what its command says, or refuses it by the first rule
//! that it breaks. So a test bench can send a controller a driver's mistakes:
//!
//! ```
//! let mut machine = Machine::new(alloc, subsystem)?;
//! machine.write32(0, 0x24, 0x0007_0007); // AQA: eight entries each
//! machine.write32(0, 0x28, 0x0000); // ASQ
//! machine.write32(0, 0x30, 0x1000); // ACQ
//! machine.write32(0, 0x14, 0x0046_0001); // CC: pages of 4,096 bytes, EN
//!
//! // An opcode that doesn't exist, and data outside a memory of sixteen pages.
//! mem.store(0x00, &entry(0xff, 0x5000))?;
//! mem.store(0x40, &entry(0x06, 0x10000))?;
//! machine.write32(0, 0x1000, 2); // the tail
//!
//! // Both are taken. Their completions at 1000h and 1010h say Invalid Command Opcode and Data
//! // Transfer Error, and the controller's error log has both.
//! let taken = machine.turn(0, &mut mem, 16);
//! ```
//!
//! `tests/rows/turns_with_mistakes.txt` has this example in full, with a list that is written over
//! the submission queue itself.
//!
//! These are the registers by their offsets in bytes. Each is read and written as one dword:
//!
//! | Offset | Register |
//! | --- | --- |
//! | 00h, 04h | CAP, Controller Capabilities, bits 31:0 and 63:32 |
//! | 08h | VS, Version |
//! | 14h | CC, Controller Configuration |
//! | 1Ch | CSTS, Controller Status |
//! | 24h | AQA, Admin Queue Attributes |
//! | 28h, 2Ch | ASQ, the submission ring's address, bits 31:0 and 63:32 |
//! | 30h, 34h | ACQ, the completion ring's address, bits 31:0 and 63:32 |
//! | 1000h | The doorbell of the submission ring's tail |
//! | 1004h | The doorbell of the completion ring's head |
//!
//! At any other offset a read returns 0, and a write changes nothing.
//!
//! Sections are named as in the NVM Express Base Specification, revision 1.4.
#![tactic(auto)]

mod caller;
mod deliver;
mod entry;
mod entry_room;
mod machine;
mod pair;
mod reply_data;

pub use machine::Machine;
pub use nv_bus::Bus;
