//! How serving ends.

ghost use Rattle.std.specs.Prelude.{◌≡◌, ◌≢◌};
ghost use Rattle.nv_driver.specs.declared.error.DriverError.TheVariants as error;
ghost use Rattle.nv_driver.specs.declared.geometry_field.GeometryField.{GeometryField};
ghost use Rattle.nv_serve.specs.declared.ends.ServeEnd.TheVariants as end;

use nv_driver::{DriverError, GeometryField};

/// How the requests ended.
#[derive(Clone, Copy, Debug, PartialEq, Eq)]
pub enum RequestsEnd {
    /// The source ended between two requests.
    Done,
    /// The source ended inside a request, which was not executed.
    Short,
    /// A request asked for more data than is allowed.
    TooLong,
    /// The source failed, or the greatest number of requests was reached.
    Read,
    /// The sink failed.
    Write,
    /// A controller isn't ready after a reset. A bus that keeps its contract never causes this.
    NoReady,
}

/// How serving ended.
#[derive(Clone, Copy, Debug, PartialEq, Eq)]
pub enum ServeEnd {
    /// The requests ended.
    Requests(RequestsEnd),
    /// The first field of the geometry that is outside its limits. Nothing was read or written.
    Geometry(GeometryField),
    /// A controller's CSTS.RDY doesn't have the expected value. A bus that keeps its contract never
    /// causes this.
    NoReady,
    /// There was no memory. Nothing was read or written.
    Memory,
}

impl From<DriverError> for ServeEnd {
    ghost from_gives = { λ from to.
        ((field : GeometryField) → from ≡ error.Geometry field → to ≡ end.Geometry field)
        × (from ≡ error.Memory → to ≡ end.Memory)
        × (from ≡ error.NoReady → to ≡ end.NoReady) };

    fn from(error: DriverError) -> ServeEnd {
        match error {
            DriverError::Geometry(field) => ServeEnd::Geometry(field),
            DriverError::Memory => ServeEnd::Memory,
            DriverError::NoReady => ServeEnd::NoReady,
        }
    }
}
