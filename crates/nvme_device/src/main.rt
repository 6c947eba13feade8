//! Answers requests to the controllers of a model of an NVM subsystem. It reads them from standard
//! input, and writes the answers to standard output.
#![tactic(auto)]

ghost use Rattle.std.specs.Prelude.{◌≡◌};
ghost use Rattle.nv_bus.specs.Bus.{IsBus};
ghost use Rattle.nv_model.specs.WellFormed.{IsWellFormed};
ghost use Rattle.nvme_device.specs.Ends.{ended};

use nv_bus::Bus;
use nv_controller::Machine;
use nv_driver::Geometry;
use nv_program::{Stop, asked, exit_code, words_given};
use nv_serve::{RequestsEnd, ServeEnd, serve};
use nv_stream::{OverRead, OverWrite, Retrying};
use nv_subsystem::Subsystem;
use nv_trace::Traced;
use std::io;
use std::process::ExitCode;

/// Returns the exit status if the requests ended, or why the program stopped.
fn status_of(end: ServeEnd) -> Result<u8, Stop>
    ensures { result ≡ ended end }
{
    match end {
        ServeEnd::Requests(RequestsEnd::Done) => Ok(0),
        ServeEnd::Requests(RequestsEnd::Short) => Err(Stop::Short),
        ServeEnd::Requests(RequestsEnd::TooLong) => Err(Stop::TooLong),
        ServeEnd::Requests(RequestsEnd::Read) => Err(Stop::Read),
        ServeEnd::Requests(RequestsEnd::Write) => Err(Stop::Write),
        ServeEnd::Requests(RequestsEnd::NoReady) => Err(Stop::NoReady),
        ServeEnd::Geometry(field) => Err(Stop::Geometry(field)),
        ServeEnd::NoReady => Err(Stop::NoReady),
        ServeEnd::Memory => Err(Stop::Memory),
    }
}

/// Answers the requests over this bus. No stream is buffered: each answer is written before more is
/// read.
fn serve_requests<B: Bus>(rt: &HostRuntime, bus: &mut B, geometry: Geometry) -> Result<u8, Stop>
    requires { IsBus (B.meaning bus.old) }
{
    let mut source = OverRead::new(rt.reader());
    let mut out = OverWrite::new(Retrying::new(io::writer(rt)));
    status_of(serve(rt.alloc(), bus, geometry, &mut source, &mut out))
}

/// Answers the requests, and writes a trace of the bus to standard error if that is asked for.
fn serve_subsystem(
    rt: &HostRuntime,
    subsystem: Subsystem,
    geometry: Geometry,
    is_traced: bool,
) -> Result<u8, Stop>
    requires { IsWellFormed subsystem }
{
    let Ok(mut machine) = Machine::new(rt.alloc(), subsystem) else {
        return Err(Stop::Memory);
    };
    if !is_traced {
        return serve_requests(rt, &mut machine, geometry);
    }
    let trace = OverWrite::new(Retrying::new(rt.stderr()));
    let mut bus = Traced::new(machine, trace);
    let status = serve_requests(rt, &mut bus, geometry)?;
    if bus.is_silent() {
        Err(Stop::Write)
    } else {
        Ok(status)
    }
}

/// Answers the requests as the arguments say. `--trace` may be anywhere among them.
fn serve_as_asked(rt: &HostRuntime) -> Result<u8, Stop> {
    let given = words_given(rt)?;
    let words: Vec<&str> = given
        .iter()
        .map(|word| word.as_str())
        .filter(|word| *word != "--trace")
        .collect(rt.alloc())?;
    let is_traced = words.len() < given.len();
    let (subsystem, geometry) = asked(rt, words.as_slice())?;
    serve_subsystem(rt, subsystem, geometry, is_traced)
}

fn main(rt: HostRuntime) -> ExitCode {
    exit_code(&rt, "nvme-device", serve_as_asked(&rt))
}
