//! Runs scripts over the subsystem of a file.

ghost use Rattle.std.specs.Prelude.{◌≡◌, false};
ghost use Rattle.nv_stream.specs.Streams.{IsFresh};

use nv_controller::Machine;
use nv_script::{Geometry, RunEnd, Sink, Source, run};
use nv_subsystem::Subsystem;
use std::alloc::{AllocError, Global};
use std::test::Fail;

/// Runs a script over the subsystem of a file after power on, with a driver of this geometry.
pub(crate) fn run_over<R: Source, O: Sink, M: Sink>(
    alloc: Global,
    file: &str,
    geometry: Geometry,
    script: &mut R,
    out: &mut O,
    messages: &mut M,
) -> Result<RunEnd, Fail>
    requires fresh_script { IsFresh (R.state script.old) }
    requires fresh_out { (O.state out.old).has_failed ≡ false }
    requires fresh_messages { (M.state messages.old).has_failed ≡ false }
{
    let subsystem = Subsystem::from_toml(alloc, file.as_bytes())?;
    let mut machine = Machine::new(alloc, subsystem)?;
    Ok(run(alloc, &mut machine, geometry, script, out, messages))
}

/// Returns geometries of every kind: the least and the greatest depth, each page size, and data
/// that begins at the first, the second and the last dword of a page.
pub(crate) fn geometries(alloc: Global) -> Result<Vec<Geometry>, AllocError> {
    let mut geometries = Vec::new(alloc);
    for page_size in [4096, 8192, 16384, 32768, 65536] {
        for depth in [2, 4096] {
            for offset in [0, 4, page_size - 4] {
                geometries.push(Geometry {
                    depth,
                    page_size,
                    offset,
                    ..Geometry::default()
                })?;
            }
        }
    }
    Ok(geometries)
}
