//! What can be wrong with the arguments.

ghost use Rattle.std.specs.Prelude.{◌≡◌};
ghost use Rattle.nv_arguments.specs.declared.fault.ArgumentsFault.TheVariants.{Memory};

use std::alloc::AllocError;
use std::fmt;
use thiserror::Error;

/// Why the arguments were refused.
#[derive(Clone, Copy, Debug, PartialEq, Eq, Error)]
pub enum ArgumentsFault {
    /// The arguments aren't those that the program takes.
    Refused,
    /// There was no memory.
    Memory,
}

impl fmt::Display for ArgumentsFault {
    ghost use Rattle.std.specs.Prelude.{Some};
    ghost use Rattle.nv_arguments.specs.FaultText.{fault_text};

    ghost output = { λ fault. Some (fault_text fault) };

    fn fmt<W: fmt::Write>(&self, f: &mut fmt::Formatter<W>) -> fmt::Result {
        match self {
            ArgumentsFault::Refused => f.write_str("arguments"),
            ArgumentsFault::Memory => f.write_str("out of memory"),
        }
    }
}

impl From<AllocError> for ArgumentsFault {
    ghost from_gives = { λ _ fault. fault ≡ Memory };

    fn from(_: AllocError) -> ArgumentsFault {
        ArgumentsFault::Memory
    }
}
