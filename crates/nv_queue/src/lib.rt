//! The submission queue and the completion queue of NVM Express, as rings in the host's memory,
//! seen from the host's side and from the device's.
//!
//! Submissions and completions are numbered from 0, since the rings were created or renewed. Number
//! n is in slot n modulo the depth. A completion's phase tag is 1 in the first pass over its ring,
//! and is inverted in each later pass.
//!
//! A ring has 2 to 4,096 slots, of 64 bytes for submissions and of 16 bytes for completions. The
//! host's rings lie in its memory, and the host zeroes the slots of a completion ring with `zero`
//! before the device uses it. The device calls `fits` before it takes or posts, because the ring at
//! the address that the host gave may not lie in the memory.
//!
//! # Example
//!
//! A command and its completion, where `mem` has two zeroed pages of 4,096 bytes:
//!
//! ```
//! let mut submissions = SubmitRing::new(0, 16);
//! let mut completions = CompletionRing::new(4096, 16);
//! let mut fetch = Fetch::new(0, 16);
//! let mut post = Post::new(4096, 16);
//!
//! // The host submits, and writes the new tail to the tail doorbell.
//! let tail = submissions.push(&mut mem, &command)?;
//! fetch.tail(u32::from(tail));
//!
//! // The device takes the command, and posts its completion.
//! if fetch.fits(&mem)
//!     && let Some(taken) = fetch.next(&mem)
//!     && post.fits(&mem)
//! {
//!     post.put(&mut mem, success(taken.cid, fetch.head()))?;
//! }
//!
//! // The host collects it, and writes the new head to the head doorbell.
//! if let Some(completion) = completions.poll(&mem) {
//!     if submissions.may_free(completion.sq_head) {
//!         submissions.freed(completion.sq_head);
//!     }
//! }
//! if let Some(head) = completions.head_to_tell() {
//!     post.head(u32::from(head));
//! }
//! ```
//!
//! Sections are named as in the NVM Express Base Specification, revision 1.4.
#![tactic(auto)]

ghost use Rattle.nv_queue.specs.Runs.{EveryRunIsInOrder};

mod completion_ring;
mod ring;
mod submission_ring;

pub use completion_ring::{CompletionRing, CqFull, Post};
pub use submission_ring::{Fetch, RingFull, SubmitRing};

/// States the law of this crate: for any sequence of posts, polls and heads written to the doorbell
/// on one completion ring, what was polled is the beginning of what was posted, each once and in
/// order. The call does nothing.
pub fn any_run()
    ensures { EveryRunIsInOrder }
{}
