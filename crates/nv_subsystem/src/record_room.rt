//! Room for what replies borrow.

use nv_layout::{IdCtrl, IdNs, NsList, Smart};

/// Room for what a reply borrows, and for lists on the way to it. It is allocated once and then
/// reused, and what it holds before a call doesn't matter.
#[derive(Drop)]
pub struct RecordRoom {
    pub(crate) controller: Option<IdCtrl>,
    pub(crate) namespace: Option<IdNs>,
    pub(crate) smart: Option<Smart>,
    pub(crate) list: NsList,
}

impl RecordRoom {
    /// Creates empty storage.
    pub fn new() -> RecordRoom {
        RecordRoom {
            controller: None,
            namespace: None,
            smart: None,
            list: NsList::new(),
        }
    }
}
