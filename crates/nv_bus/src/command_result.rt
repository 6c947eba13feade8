//! What a completion says.

use nv_layout::Status;

/// What the completion of an entry says about its answer.
#[derive(Clone, Copy)]
pub struct CommandResult {
    pub dword0: u32,
    pub status: Status,
}
