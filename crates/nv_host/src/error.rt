//! The errors of a host's memory.

use thiserror::Error;

/// The range doesn't lie in the host's memory.
#[derive(Clone, Copy, Debug, Error, PartialEq, Eq)]
#[error("the range leaves the host's memory")]
pub struct OutOfMemoryRange;

/// There is no memory left to allocate.
#[derive(Clone, Copy, Debug, Error, PartialEq, Eq)]
#[error("out of memory")]
pub struct Memory;
