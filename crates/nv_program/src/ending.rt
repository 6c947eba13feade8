//! The end of a program.

ghost use Rattle.std.specs.Prelude.{◌≡◌};
ghost use Rattle.std.specs.Process.{exit_status};
ghost use Rattle.nv_program.specs.Stops.{status_left};

use crate::stop::Stop;
use std::process::ExitCode;

/// Returns the exit code of a program that ended so. If it stopped, it writes a line to standard
/// error that says why, after the program's name.
pub fn exit_code(rt: &HostRuntime, program: &str, done: Result<u8, Stop>) -> ExitCode
    ensures { exit_status result ≡ status_left done }
{
    match done {
        Ok(status) => ExitCode::from(status),
        Err(stop) => {
            let _ = eprintln!(rt; "{program}: {stop}");
            ExitCode::from(stop.status())
        }
    }
}
