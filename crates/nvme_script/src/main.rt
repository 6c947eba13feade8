//! Runs a script of `nvme` commands on a model of an NVM subsystem.
#![tactic(auto)]

ghost use Rattle.nv_model.specs.WellFormed.{IsWellFormed};

use nv_controller::Machine;
use nv_program::{Stop, asked, exit_code, status_of, words_given};
use nv_script::{
    Geometry, OverRead, OverShared, OverWrite, Retrying, SharedWriter, SinkAfter, SourceAfter, run,
};
use nv_subsystem::Subsystem;
use std::io::{self, BufWriter};
use std::process::ExitCode;

/// Runs the script on standard input. What lines write is flushed before more of the script is
/// read, and before a message is written.
fn run_script(rt: &HostRuntime, subsystem: Subsystem, geometry: Geometry) -> Result<u8, Stop>
    requires { IsWellFormed subsystem }
{
    let alloc = rt.alloc();
    let Ok(buffered) = BufWriter::new(alloc, Retrying::new(io::writer(rt))) else {
        return Err(Stop::Memory);
    };
    let Ok(mut machine) = Machine::new(alloc, subsystem) else {
        return Err(Stop::Memory);
    };
    let shared = SharedWriter::new(buffered);
    let mut script = SourceAfter::new(OverRead::new(rt.reader()), &shared);
    let mut out = OverShared::new(&shared);
    let mut messages = SinkAfter::new(OverWrite::new(Retrying::new(rt.stderr())), &shared);
    let end = run(
        alloc,
        &mut machine,
        geometry,
        &mut script,
        &mut out,
        &mut messages,
    );
    let is_out = shared.flush();
    let status = status_of(end)?;
    if is_out { Ok(status) } else { Err(Stop::Write) }
}

/// Runs the script as the arguments say.
fn run_as_asked(rt: &HostRuntime) -> Result<u8, Stop> {
    let given = words_given(rt)?;
    let words: Vec<&str> = given.iter().map(|word| word.as_str()).collect(rt.alloc())?;
    let (subsystem, geometry) = asked(rt, words.as_slice())?;
    run_script(rt, subsystem, geometry)
}

fn main(rt: HostRuntime) -> ExitCode {
    exit_code(&rt, "nvme-script", run_as_asked(&rt))
}
