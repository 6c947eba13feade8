//! The memory of an NVM Express host, as bytes in pages, and sets of page numbers.
//!
//! Sections are named as in the NVM Express Base Specification, revision 1.4.
//!
//! ```
//! // 16 pages of 4096 bytes, of which those from 4 on are free
//! let mut mem = FlatMemory::new(alloc, 4096, 16)?;
//! let mut free = PageSet::new(alloc, 4, 12)?;
//! if let Some(page) = free.take() {
//!     mem.store(u64::from(page) * 4096, &[0xff; 2])?;
//!     let mut dword = [0; 4];
//!     mem.load(u64::from(page) * 4096, &mut dword)?;
//!     free.give(page);
//! }
//! ```
#![tactic(auto)]

ghost use Rattle.nv_host.specs.Bytes.{LengthStays, OthersStay, WrittenIsRead};
ghost use Rattle.nv_host.specs.PageWrites.{PageIsWritten, PagesStay};

mod error;
mod lent;
mod memory;
mod page_set;
mod paged;

pub use error::{Memory, OutOfMemoryRange};
pub use lent::{LentBytes, LentMemory, Loan};
pub use memory::{FlatMemory, HostMemory, are_pages, is_page_size, size_of_memory};
pub use page_set::{PageNo, PageSet};
pub use paged::{PagedMemory, Payload};

/// States the laws of loads and stores: a load returns what was stored, and other bytes don't
/// change. The call does nothing.
pub fn store_then_load()
    ensures written { WrittenIsRead }
    ensures others { OthersStay }
    ensures length { LengthStays }
{}

/// States the laws of a page that a memory lends to be changed: its bytes are then those that were
/// written there, and no other page changes. The call does nothing.
pub fn page_mut_then_page()
    ensures page { PageIsWritten }
    ensures others { PagesStay }
{}
