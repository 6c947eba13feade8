//! Sets and maps of small numbers, with a place for each number of a range. Memory is allocated
//! when they are created, and never by a later call.
//!
//! ```
//! // identifiers from 1 to 1024
//! let mut names = VecMap::new(alloc, 1, 1024)?;
//! if let Some(id) = names.lowest_free() {
//!     names.insert(id, 'a');
//! }
//! let mut after = 0;
//! while let Some(id) = names.next_above(after) {
//!     after = id;
//! }
//! ```
#![tactic(auto)]

mod bit_set;
mod vec_map;

pub use bit_set::BitSet;
pub use vec_map::VecMap;
