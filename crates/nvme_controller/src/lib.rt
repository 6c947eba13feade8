//! The controllers of an NVM subsystem for programs in C. A program holds a machine by a
//! [`Handle`], and each of its calls is a call of `nv_controller`, with the clauses of that call.
//!
//! `nv_controller` is the model itself. This crate only gives it an interface for C.
//!
//! `library/nvme_controller.h` declares the calls for a program in C.
#![tactic(auto)]

mod blocks;
mod caller;
mod calls;
mod data;
mod fault;
mod handle;
mod identify;
mod lent;
mod parts;
mod queues;
mod status;
mod zeroing;

pub use blocks::LentBlocks;
pub use caller::Answer;
pub use handle::Handle;
pub use queues::{CompletionQueue, SubmissionQueue};
pub use zeroing::ByteRange;
