//! The rings of a ready controller.

use nv_queue::{Fetch, Post};

/// The rings of a ready controller's admin queue pair, and the page size that was set when it was
/// enabled.
#[derive(Drop)]
pub struct Rings {
    /// The page size, in bytes.
    pub page_size: u32,
    pub submission: Fetch,
    pub completion: Post,
}
