//! Refusals of commands.

use crate::status_code::StatusCode;
use nv_layout::Status;
use std::error::Error;
use std::fmt;

/// Why a command was refused.
#[derive(Clone, Copy, Debug, PartialEq, Eq)]
pub struct Refusal {
    /// The status of its completion and of its entry in the error log.
    pub status: Status,
    /// The command specific information of its entry in the error log.
    pub specific: u64,
}

impl From<StatusCode> for Refusal {
    ghost use Rattle.std.specs.Prelude.{◌≡◌};
    ghost use Rattle.nv_command.specs.Refusal.{refusal_by};

    ghost from_gives = { λ code refusal. refusal ≡ refusal_by code };

    /// Returns a refusal with no command specific information.
    fn from(code: StatusCode) -> Refusal {
        Refusal {
            status: code.status(),
            specific: 0,
        }
    }
}

impl fmt::Display for Refusal {
    ghost use Rattle.std.specs.Prelude.{Some};
    ghost use Rattle.nv_command.specs.StatusCode.{name_of_status};

    ghost output = { λ refusal. Some (name_of_status refusal.status) };

    fn fmt<W: fmt::Write>(&self, f: &mut fmt::Formatter<W>) -> fmt::Result {
        f.write_str(StatusCode::name_of(self.status))
    }
}

impl Error for Refusal {}
