//! How a run ends.

ghost use Rattle.std.specs.Prelude.{◌≡◌};
ghost use Rattle.nv_driver.specs.declared.error.DriverError.TheVariants as error;
ghost use Rattle.nv_driver.specs.declared.geometry_field.GeometryField.{GeometryField};
ghost use Rattle.nv_script.specs.declared.ends.RunEnd.TheVariants as end;

use nv_driver::{DriverError, GeometryField};
use std::fmt;

/// How a run ended.
#[derive(Clone, Copy, Debug, PartialEq, Eq)]
pub enum RunEnd {
    /// The script's end, with the status of its last line that has one: 0 done, 1 a fault, 2 a
    /// refusal.
    Status(u8),
    /// The first field of the geometry that is out of its limits. Nothing was read or written.
    Geometry(GeometryField),
    /// A controller's CSTS.RDY is not as awaited: a bus that keeps its contract has no such end.
    NoReady,
    /// The source failed, or was asked as often as it may be.
    Read,
    /// The output failed.
    OutWrite,
    /// The messages failed.
    MessageWrite,
    /// Memory was refused.
    Memory,
}

impl fmt::Display for RunEnd {
    ghost use Rattle.std.specs.Prelude.{Some};
    ghost use Rattle.nv_script.specs.EndText.{end_text};

    ghost output = { λ run_end. Some (end_text run_end) };

    fn fmt<W: fmt::Write>(&self, f: &mut fmt::Formatter<W>) -> fmt::Result {
        match self {
            RunEnd::Status(status) => write!(f, "status {status}"),
            RunEnd::Geometry(field) => write!(f, "{}", DriverError::Geometry(*field)),
            RunEnd::NoReady => write!(f, "{}", DriverError::NoReady),
            RunEnd::Read => f.write_str("read fault"),
            RunEnd::OutWrite | RunEnd::MessageWrite => f.write_str("write fault"),
            RunEnd::Memory => write!(f, "{}", DriverError::Memory),
        }
    }
}

impl From<DriverError> for RunEnd {
    ghost from_gives = { λ from to.
        ((field : GeometryField) → from ≡ error.Geometry field → to ≡ end.Geometry field)
        × (from ≡ error.Memory → to ≡ end.Memory)
        × (from ≡ error.NoReady → to ≡ end.NoReady) };

    fn from(error: DriverError) -> RunEnd {
        match error {
            DriverError::Geometry(field) => RunEnd::Geometry(field),
            DriverError::Memory => RunEnd::Memory,
            DriverError::NoReady => RunEnd::NoReady,
        }
    }
}
