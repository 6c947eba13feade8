//! The commands of logs: `smart-log` and `error-log`.

ghost use Rattle.std.specs.Prelude.{◌≡◌, IfOk};
ghost use Rattle.clap.specs.Words.{found_of, rows_of};
ghost use Rattle.nv_line.specs.Ask.{IsAskable};
ghost use Rattle.nv_line.specs.Commands.{error_log_of, smart_log_of};

use crate::device::Device;
use crate::fault::LineFault;
use crate::request::Ask;
use crate::value::read_number;
use crate::verb::{LOG_ENTRIES, SMART_NSID};
use clap::ArgMatches;
use nv_command::{Command, DwordCount, HEALTH, LogQuery};

/// Reads a `smart-log`.
pub(crate) fn smart_log<'a>(matches: &ArgMatches<'_>, device: Device) -> Result<Ask<'a>, LineFault>
    ensures value { result ≡ smart_log_of (rows_of (found_of matches.now)) device }
    ensures askable { IfOk result IsAskable }
{
    let nsid = read_number(matches, SMART_NSID, device)? as u32;
    Ok(Ask::Send(Command::GetLog(LogQuery {
        lid: HEALTH,
        nsid,
        offset: 0,
        dwords: DwordCount::from_zeros_based(127),
    })))
}

/// Reads an `error-log`.
pub(crate) fn error_log<'a>(matches: &ArgMatches<'_>, device: Device) -> Result<Ask<'a>, LineFault>
    ensures value { result ≡ error_log_of (rows_of (found_of matches.now)) device }
    ensures askable { IfOk result IsAskable }
{
    let entries = read_number(matches, LOG_ENTRIES, device)? as u32;
    Ok(Ask::ErrorLog { entries })
}
