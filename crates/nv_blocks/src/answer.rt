//! What completions say.

ghost use Rattle.std.specs.Prelude.{◌≤◌, length};
ghost use Rattle.nv_prp.specs.Transfer.{most_bytes};

use nv_layout::Status;

/// What the completion of an entry says about its outcome.
#[derive(Clone, Copy, Debug, PartialEq, Eq)]
pub struct CommandResult {
    pub dword0: u32,
    pub status: Status,
}

/// The answer of a caller to an entry.
#[derive(Clone, Copy)]
pub struct Answer<'a> {
    /// What its completion says.
    pub command_result: CommandResult,
    /// What is sent to the entry's data before, at most 1,048,576 bytes. There may be none.
    pub data: &'a [u8],
    ghost few: { length data.now ≤ most_bytes },
}
