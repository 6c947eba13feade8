//! Why a program stops, and the exit status that it stops with.

ghost use Rattle.std.specs.Prelude.{◌≡◌};
ghost use Rattle.std.specs.IoError.{error_kind};
ghost use Rattle.nv_program.specs.Stops.{ended, exit_status, of_arguments, of_file};
ghost use Rattle.nv_program.specs.Stops.{unless_memory};
ghost use Rattle.nv_program.specs.declared.stop.Stop.TheVariants.{Memory};

use nv_arguments::ArgumentsFault;
use nv_script::{GeometryField, RunEnd};
use nv_subsystem::SubsystemError;
use std::alloc::AllocError;
use std::fmt;
use std::io::{self, ErrorKind};
use thiserror::Error;

/// Why a program didn't come to the end of its script, or of its requests.
#[derive(Clone, Copy, Debug, PartialEq, Eq, Error)]
pub enum Stop {
    /// The arguments were refused.
    Arguments,
    /// The subsystem file can't be read, or is too long.
    Unreadable,
    /// The subsystem file was refused.
    Subsystem(SubsystemError),
    /// The first field of the geometry that is out of its limits.
    Geometry(GeometryField),
    /// A controller's CSTS.RDY is not as awaited.
    NoReady,
    /// The source failed.
    Read,
    /// The source ended in a request.
    Short,
    /// A request asked for more data than may be.
    TooLong,
    /// An output failed.
    Write,
    /// Memory was refused.
    Memory,
}

// The arguments and a run report in their own words what they come to.
impl fmt::Display for Stop {
    ghost use Rattle.std.specs.Prelude.{Some};
    ghost use Rattle.nv_program.specs.StopText.{stop_text};

    ghost output = { λ stop. Some (stop_text stop) };

    fn fmt<W: fmt::Write>(&self, f: &mut fmt::Formatter<W>) -> fmt::Result {
        match self {
            Stop::Arguments => write!(f, "{}", ArgumentsFault::Refused),
            Stop::Unreadable => f.write_str("subsystem: unreadable"),
            Stop::Subsystem(error) => write!(f, "subsystem: {error}"),
            Stop::Geometry(field) => write!(f, "{}", RunEnd::Geometry(*field)),
            Stop::NoReady => write!(f, "{}", RunEnd::NoReady),
            Stop::Read => write!(f, "{}", RunEnd::Read),
            Stop::Short => f.write_str("request cut short"),
            Stop::TooLong => f.write_str("request too long"),
            Stop::Write => write!(f, "{}", RunEnd::OutWrite),
            Stop::Memory => write!(f, "{}", RunEnd::Memory),
        }
    }
}

impl Stop {
    /// The exit status.
    pub fn status(self) -> u8
        ensures { result ≡ exit_status self }
    {
        match self {
            Stop::Arguments | Stop::Unreadable | Stop::Subsystem(_) => 3,
            Stop::Geometry(_) | Stop::NoReady => 3,
            Stop::Read | Stop::Short | Stop::TooLong => 4,
            Stop::Write => 5,
            Stop::Memory => 6,
        }
    }

    /// Returns why a fault of the arguments or of a file stops the program: lack of memory, or this.
    pub fn of_fault(error: io::Error, otherwise: Stop) -> Stop
        ensures { result ≡ unless_memory (error_kind error) otherwise }
    {
        match error.kind() {
            ErrorKind::OutOfMemory => Stop::Memory,
            _ => otherwise,
        }
    }
}

impl From<ArgumentsFault> for Stop {
    ghost from_gives = { λ fault stop. stop ≡ of_arguments fault };

    fn from(fault: ArgumentsFault) -> Stop {
        match fault {
            ArgumentsFault::Refused => Stop::Arguments,
            ArgumentsFault::Memory => Stop::Memory,
        }
    }
}

impl From<SubsystemError> for Stop {
    ghost from_gives = { λ error stop. stop ≡ of_file error };

    fn from(error: SubsystemError) -> Stop {
        match error {
            SubsystemError::Memory => Stop::Memory,
            error => Stop::Subsystem(error),
        }
    }
}

impl From<AllocError> for Stop {
    ghost from_gives = { λ _ stop. stop ≡ Memory };

    fn from(_: AllocError) -> Stop {
        Stop::Memory
    }
}

/// The status of a run that came to the end of its script, or why it stopped.
pub fn status_of(end: RunEnd) -> Result<u8, Stop>
    ensures { result ≡ ended end }
{
    match end {
        RunEnd::Status(status) => Ok(status),
        RunEnd::Geometry(field) => Err(Stop::Geometry(field)),
        RunEnd::NoReady => Err(Stop::NoReady),
        RunEnd::Read => Err(Stop::Read),
        RunEnd::OutWrite | RunEnd::MessageWrite => Err(Stop::Write),
        RunEnd::Memory => Err(Stop::Memory),
    }
}
