//! An entry with its completion.

use nv_layout::{Cqe, Sqe};

/// An entry that a controller took, its completion as it was posted, and the addresses of their
/// slots.
#[derive(Clone, Copy)]
pub struct Exchange {
    pub entry: Sqe,
    pub entry_address: u64,
    pub completion: Cqe,
    pub completion_address: u64,
}
