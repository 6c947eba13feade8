//! What can be wrong with a line.

ghost use Rattle.std.specs.Prelude.{◌≡◌};
ghost use Rattle.nv_line.specs.declared.fault.LineFault.TheVariants.{Memory};

use crate::option::OptionName;
use std::alloc::AllocError;
use std::fmt;
use thiserror::Error;

/// What is wrong with a line.
#[derive(Clone, Copy, Debug, PartialEq, Eq, Error)]
pub enum LineFault {
    /// The line isn't UTF-8.
    NotText,
    /// The line has no command word, or the command doesn't take the other words.
    Usage,
    /// The line names no device of the subsystem.
    Device,
    /// The value of an option is not a number in its range.
    Number(OptionName),
    /// There was no memory.
    Memory,
    /// The line has more than 4,095 bytes.
    TooLong,
}

impl fmt::Display for LineFault {
    ghost use Rattle.std.specs.Prelude.{Some};
    ghost use Rattle.nv_line.specs.LineFault.{fault_text};

    ghost output = { λ fault. Some (fault_text fault) };

    fn fmt<W: fmt::Write>(&self, f: &mut fmt::Formatter<W>) -> fmt::Result {
        match self {
            LineFault::NotText => write!(f, "not UTF-8 text"),
            LineFault::Usage => write!(f, "usage error"),
            LineFault::Device => write!(f, "no such device"),
            LineFault::Number(option) => write!(f, "bad number for --{option}"),
            LineFault::Memory => write!(f, "out of memory"),
            LineFault::TooLong => write!(f, "line too long"),
        }
    }
}

impl From<AllocError> for LineFault {
    ghost from_gives = { λ _ fault. fault ≡ Memory };

    fn from(_: AllocError) -> LineFault {
        LineFault::Memory
    }
}
