//! Answers the entries of I/O queues by the NVM Command Set, over the data of a namespace that a
//! caller lends as bytes. The queues are those of `nv_queue`, seen from the controller, and the data
//! lies in a host's memory behind PRP entries and lists.
//!
//! Any entry in any memory is answered: a turn does what the entry asks for, or refuses it by the
//! first rule that it breaks, and then posts its completion.
//!
//! ```
//! // Namespace 5 with blocks of 512 bytes, and transfers of at most 128 KiB.
//! let terms = Terms {
//!     sqid: 1,
//!     namespace: Some(Namespace { nsid: 5, block_size: 512 }),
//!     limit: 131_072,
//!     is_exhausted: false,
//! };
//! fetch.tail(tail);
//! while let Ok(taken) = turn(&mut fetch, &mut post, &mut mem, &mut stored, &terms) {
//!     // The host has the completion in its memory.
//! }
//! ```
//!
//! Sections are named as in the NVM Express Base Specification, revision 1.4.
#![tactic(auto)]

ghost use Rattle.nv_blocks.specs.Runs.{EveryCompletionIsPosted, EveryQueueIsInOrder};
ghost use Rattle.nv_blocks.specs.Runs.{EveryReadGivesTheNewest};

mod answer;
mod command;
mod compare;
mod execute;
mod ranges;
mod refusal;
mod terms;
mod turns;
mod zeroing;

pub use answer::{Answer, CommandResult};
pub use command::Extent;
pub use execute::send;
pub use refusal::Refusal;
pub use terms::{Namespace, Terms};
pub use turns::{Stop, Taken, complete, next_entry, turn};
pub use zeroing::{Extents, find_zeroed, zeroing_is_execution};

/// States the laws of this crate, for any turns of any queues over any namespaces, one after
/// another, and whatever the host does between them: each block is what was last written to it, or
/// zeros if its namespace was made or formatted or it was deallocated since, and this is what a read
/// gives; each entry that is taken has one completion, in the order of its queue, and it is posted.
/// The call does nothing.
pub fn any_run()
    ensures reads { EveryReadGivesTheNewest }
    ensures queues { EveryQueueIsInOrder }
    ensures completions { EveryCompletionIsPosted }
{}
