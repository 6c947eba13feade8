//! Runs a script of `nvme` commands on a model of an NVM subsystem, and writes what goes over the
//! bus to its controllers: each register write, each entry that was taken and each completion that
//! was posted. Between them are the texts that the script's lines print, with `| ` before each
//! line.
#![tactic(auto)]

ghost use Rattle.nv_model.specs.WellFormed.{IsWellFormed};

use nv_controller::Machine;
use nv_program::{Stop, asked, exit_code, status_of, words_given};
use nv_script::{Geometry, OverRead, OverShared, Retrying, SharedWriter, SourceAfter, run};
use nv_subsystem::Subsystem;
use nv_trace::{Marked, Traced};
use std::io::{self, BufWriter};
use std::process::ExitCode;

/// Runs the script on standard input. The trace and what lines write go to standard output, which
/// is flushed before more of the script is read.
fn run_script(rt: &HostRuntime, subsystem: Subsystem, geometry: Geometry) -> Result<u8, Stop>
    requires { IsWellFormed subsystem }
{
    let alloc = rt.alloc();
    let Ok(buffered) = BufWriter::new(alloc, Retrying::new(io::writer(rt))) else {
        return Err(Stop::Memory);
    };
    let Ok(machine) = Machine::new(alloc, subsystem) else {
        return Err(Stop::Memory);
    };
    let shared = SharedWriter::new(buffered);
    let mut script = SourceAfter::new(OverRead::new(rt.reader()), &shared);
    let mut bus = Traced::new(machine, OverShared::new(&shared));
    let mut out = Marked::new(OverShared::new(&shared));
    let mut messages = Marked::new(OverShared::new(&shared));
    let end = run(
        alloc,
        &mut bus,
        geometry,
        &mut script,
        &mut out,
        &mut messages,
    );
    let is_out = shared.flush();
    let status = status_of(end)?;
    if is_out && !bus.is_silent() {
        Ok(status)
    } else {
        Err(Stop::Write)
    }
}

/// Runs the script as the arguments say.
fn run_as_asked(rt: &HostRuntime) -> Result<u8, Stop> {
    let given = words_given(rt)?;
    let words: Vec<&str> = given.iter().map(|word| word.as_str()).collect(rt.alloc())?;
    let (subsystem, geometry) = asked(rt, words.as_slice())?;
    run_script(rt, subsystem, geometry)
}

fn main(rt: HostRuntime) -> ExitCode {
    exit_code(&rt, "nvme-trace", run_as_asked(&rt))
}
