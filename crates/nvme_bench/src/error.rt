//! Why an operation isn't done.

use nv_command::StatusCode;
use nv_driver::{DriverError, GeometryField};
use nv_host::{Memory, OutOfMemoryRange};
use nv_layout::LayoutError;
use nv_prp::PrpError;
use nv_queue::{CqFull, RingFull};
use nv_subsystem::SubsystemError;
use std::alloc::AllocError;
use thiserror::Error;

/// What is wrong with an argument of a line.
#[derive(Clone, Copy, Debug, PartialEq, Eq, Error)]
pub(crate) enum Slip {
    #[error("unknown")]
    Unknown,
    #[error("repeated")]
    Repeated,
    #[error("wrong value")]
    Wrong,
    #[error("missing")]
    Missing,
}

impl Slip {
    /// Returns the error for the argument at a place, counted from 0.
    pub(crate) fn at(self, place: usize) -> OperationError {
        OperationError::Argument(place.saturating_add(1), self)
    }
}

/// Why an operation isn't done: lack of memory, or what the answer to its line says.
#[derive(Clone, Copy, Debug, PartialEq, Eq, Error)]
pub(crate) enum OperationError {
    #[error("out of memory")]
    Memory(#[from(alloc)] AllocError),
    #[error("out of memory")]
    HostMemory(#[from] Memory),
    #[error("error: not UTF-8 text")]
    NotText,
    #[error("error: no such operation")]
    NoOperation,
    /// The place of a missing argument is that of its row.
    #[error("error: argument {0}: {1}")]
    Argument(usize, Slip),
    #[error("refused: outside the memory")]
    OutsideMemory(#[from] OutOfMemoryRange),
    #[error("refused: no such page")]
    NoPage,
    #[error("refused: no page size")]
    PageSize,
    #[error("refused: more than 2,047 identifiers")]
    CountTooLarge(#[from] LayoutError),
    #[error("refused: PRP offset invalid")]
    PrpOffset,
    #[error("refused: PRP outside the memory")]
    PrpOutside,
    #[error("refused: not 1 to 1,048,576 bytes")]
    Length,
    #[error("refused: no such offset")]
    Offset,
    #[error("refused: too few pages")]
    TooFewPages,
    #[error("refused: two pages are one")]
    SamePages,
    #[error("refused: spans outside the memory")]
    SpansOutside,
    #[error("refused: spans of another length")]
    SpansLength,
    #[error("refused: {0}")]
    Status(#[from] StatusCode),
    #[error("refused: no such depth")]
    Depth,
    #[error("refused: ring outside the memory")]
    RingOutside,
    #[error("refused: slot outside the memory")]
    SlotOutside,
    #[error("refused: submission ring full")]
    SubmissionsFull(#[from] RingFull),
    #[error("refused: completion ring full")]
    CompletionsFull(#[from] CqFull),
    #[error("refused: no submission")]
    NoSubmission,
    #[error("refused: no completion")]
    NoCompletion,
    #[error("refused: no such head")]
    Head,
    #[error("refused: no head to tell")]
    NoHead,
    #[error("refused: {0}")]
    File(#[from] SubsystemError),
    #[error("refused: no such controller")]
    NoController,
    #[error("refused: no such entry")]
    NoEntry,
    #[error("refused: geometry: {0}")]
    Geometry(#[from] GeometryField),
    #[error("refused: no driver")]
    NoDriver,
    #[error("refused: {0}")]
    Driver(#[from] DriverError),
    #[error("refused: part of a log")]
    PartOfLog,
    #[error("refused: not 1 to 64 whole entries")]
    Entries,
}

impl OperationError {
    /// Returns whether memory ran out.
    pub(crate) fn is_lack_of_memory(self) -> bool {
        matches!(
            self,
            OperationError::Memory(_)
                | OperationError::HostMemory(_)
                | OperationError::File(SubsystemError::Memory)
                | OperationError::Driver(DriverError::Memory)
        )
    }
}

impl From<PrpError> for OperationError {
    fn from(error: PrpError) -> OperationError {
        match error {
            PrpError::Offset => OperationError::PrpOffset,
            PrpError::Outside => OperationError::PrpOutside,
        }
    }
}
