//! Why an entry is refused.

ghost use Rattle.std.specs.Prelude.{◌≡◌};
ghost use Rattle.nv_blocks.specs.Refusal.{status_of_refusal};

use nv_layout::Status;

/// Why an entry is refused. Section "Status Code".
#[derive(Clone, Copy, Debug, PartialEq, Eq)]
pub enum Refusal {
    InvalidCommandOpcode,
    InvalidFieldInCommand,
    DataTransferError,
    InvalidNamespaceOrFormat,
    PrpOffsetInvalid,
    LbaOutOfRange,
    CapacityExceeded,
    CompareFailure,
}

impl Refusal {
    /// Returns the status, which says that a retry doesn't help (Do Not Retry). It doesn't say More,
    /// because these refusals make no entry in the error log.
    pub fn status(self) -> Status
        ensures { result ≡ status_of_refusal self }
    {
        let (sct, sc) = match self {
            Refusal::InvalidCommandOpcode => (0, 0x01),
            Refusal::InvalidFieldInCommand => (0, 0x02),
            Refusal::DataTransferError => (0, 0x04),
            Refusal::InvalidNamespaceOrFormat => (0, 0x0b),
            Refusal::PrpOffsetInvalid => (0, 0x13),
            Refusal::LbaOutOfRange => (0, 0x80),
            Refusal::CapacityExceeded => (0, 0x81),
            Refusal::CompareFailure => (2, 0x85),
        };
        Status {
            sc,
            sct,
            crd: 0,
            more: false,
            dnr: true,
        }
    }
}
