//! The host's side of an exchange with a controller.

use crate::command_pages::CommandPages;
use nv_bus::CommandResult;
use nv_prp::Spans;

/// The greatest number of requests that are outstanding at a time.
pub(crate) const MOST_OUTSTANDING: usize = 16;

/// Room for the data of one request at a time, allocated once. What it holds before doesn't
/// matter.
#[derive(Drop)]
pub struct DataRoom {
    /// Where the data lies in the host's memory.
    pub spans: Spans,
    /// What the controller sent.
    pub data: [u8; 16384],
}

/// The host's memory, and what the driver keeps beside it.
#[derive(Drop)]
pub struct HostSide<M> {
    pub mem: M,
    pub data_room: DataRoom,
    /// The pages of the outstanding requests, at their numbers modulo 16.
    pub taken: [CommandPages; MOST_OUTSTANDING],
    /// What the completion said that was collected last.
    pub last: CommandResult,
}
