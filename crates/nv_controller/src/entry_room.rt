//! Room for an entry while it is executed.

use nv_command::Transfer;
use nv_layout::CtrlList;
use nv_prp::Spans;
use nv_subsystem::RecordRoom;

/// The data of an entry.
#[derive(Drop)]
pub struct EntryData {
    /// Its direction and its length.
    pub transfer: Transfer,
    /// Where it lies in the host's memory.
    pub spans: Spans,
    /// A page of the data from the host.
    pub page: [u8; 4096],
    /// What the reply borrows.
    pub room: RecordRoom,
}

/// Room for one entry at a time, allocated once. What it holds before doesn't matter.
#[derive(Drop)]
pub struct EntryRoom {
    /// Its data.
    pub entry_data: EntryData,
    /// The controllers that it lists.
    pub listed: CtrlList,
}

impl EntryRoom {
    pub(crate) fn new() -> EntryRoom {
        EntryRoom {
            entry_data: EntryData {
                transfer: Transfer::NoData,
                spans: Spans::new(),
                page: [0; 4096],
                room: RecordRoom::new(),
            },
            listed: CtrlList::new(),
        }
    }
}
