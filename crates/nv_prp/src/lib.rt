//! Physical region page (PRP) entries and lists, which are built for a buffer in pages, and walked
//! over any memory.
//!
//! The host calls [`build`] for the pages of a buffer, and puts the two entries that it returns
//! into a command. The controller calls [`walk`] with these entries to find the spans of memory
//! that they describe; [`copy_out`] writes data to the host's memory there, and [`copy_in`] reads
//! data from it. [`write_out`] writes a [`Payload`], whose bytes are made as they are needed, and
//! [`view_in`] lends data where it lies, if that is in one page. The host finds the spans of its own
//! pages with [`Buffer::spans`].
//!
//! ```text
//! let buffer = Buffer { pages: &[5, 9, 3], offset: 4 };
//! let list = ListPlace { first: 7, second: 8, offset: 0 };
//! let (prp1, prp2) = build(&mut memory, &buffer, &list, 10_000);
//!
//! let mut spans = Spans::new();
//! walk(&memory, prp1, prp2, 10_000, &mut spans)?;
//! copy_out(&mut memory, &spans, &data);
//! ```
//!
//! Three laws say what these calls do together: [`build_then_walk`], [`copy_out_then_in`] and
//! [`written_one_by_one`]. They are functions that do nothing, and their contracts are the laws.
//!
//! Sections are named as in the NVM Express Base Specification, revision 1.4.
#![tactic(auto)]

mod buffer;
mod error;
mod law;
mod pointer;
mod range;
mod spans;
mod walker;

pub use buffer::{Buffer, ListPlace, build};
pub use error::PrpError;
pub use law::{build_then_walk, copy_out_then_in, written_one_by_one};
pub use spans::{Span, Spans, copy_in, copy_out, view_in, write_out};
pub use walker::walk;
