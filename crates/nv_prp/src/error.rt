//! What can be wrong with a physical region page entry.

use thiserror::Error;

/// Why a transfer is refused. Section "Physical Region Page Entry and List".
#[derive(Clone, Copy, Debug, PartialEq, Eq, Error)]
pub enum PrpError {
    /// An entry has an offset that isn't allowed: PRP Offset Invalid.
    #[error("PRP offset invalid")]
    Offset,
    /// A page or a Qword of the list lies outside the memory.
    #[error("outside the memory")]
    Outside,
}
