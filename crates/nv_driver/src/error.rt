//! Why a driver can't be brought up, or a controller can't be reset.

ghost use Rattle.std.specs.Prelude.{◌≡◌};
ghost use Rattle.nv_driver.specs.declared.error.DriverError.TheVariants.{Memory as NoMemory};

use crate::geometry_field::GeometryField;
use nv_host::Memory;
use std::fmt;
use thiserror::Error;

/// Why a driver can't be brought up, or a controller can't be reset.
#[derive(Clone, Copy, Debug, PartialEq, Eq, Error)]
pub enum DriverError {
    /// The first field of the geometry that is outside its limits.
    Geometry(GeometryField),
    /// There is no memory left to allocate.
    Memory,
    /// A controller's CSTS.RDY doesn't have the expected value. Section "Controller Status".
    NoReady,
}

impl fmt::Display for DriverError {
    ghost use Rattle.std.specs.Prelude.{Some};
    ghost use Rattle.nv_driver.specs.Names.{error_text};

    ghost output = { λ error. Some (error_text error) };

    fn fmt<W: fmt::Write>(&self, f: &mut fmt::Formatter<W>) -> fmt::Result {
        match self {
            DriverError::Geometry(field) => write!(f, "geometry: {field}"),
            DriverError::Memory => f.write_str("out of memory"),
            DriverError::NoReady => f.write_str("no ready"),
        }
    }
}

impl From<Memory> for DriverError {
    ghost from_gives = { λ _ e. e ≡ NoMemory };

    fn from(_error: Memory) -> DriverError {
        DriverError::Memory
    }
}
