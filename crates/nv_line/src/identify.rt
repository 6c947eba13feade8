//! The commands of the Identify family: `list-ns` and `id-ns`.

ghost use Rattle.std.specs.Prelude.{◌≡◌, IfOk};
ghost use Rattle.clap.specs.Words.{found_of, rows_of};
ghost use Rattle.nv_command.specs.Logs.{IsSendable};
ghost use Rattle.nv_line.specs.Ask.{IsAskable};
ghost use Rattle.nv_line.specs.Commands.{id_ns_of, list_command, list_ns_of, namespace_command};

use crate::device::Device;
use crate::fault::LineFault;
use crate::request::Ask;
use crate::value::{is_set, read_number};
use crate::verb::{ALL, FIRST_NSID, FORCE, NSID};
use clap::ArgMatches;
use nv_command::Command;

/// Returns the command for the NSIDs above `after`: those attached to the controller, or all
/// allocated ones.
fn list_command<'a>(all: bool, after: u32) -> Command<'a>
    ensures command { result ≡ list_command all after }
    ensures sendable { IsSendable result }
{
    if all {
        Command::AllocatedList { after }
    } else {
        Command::ActiveList { after }
    }
}

/// Returns the command for the data of a namespace: one attached to the controller, or any
/// allocated one.
fn namespace_command<'a>(force: bool, nsid: u32) -> Command<'a>
    ensures command { result ≡ namespace_command force nsid }
    ensures sendable { IsSendable result }
{
    if force {
        Command::AllocatedNamespace { nsid }
    } else {
        Command::IdentifyNamespace { nsid }
    }
}

/// Reads a `list-ns`. The line names the NSID at which the list begins, and the command the one
/// before it.
pub(crate) fn list_ns<'a>(matches: &ArgMatches<'_>, device: Device) -> Result<Ask<'a>, LineFault>
    ensures value { result ≡ list_ns_of (rows_of (found_of matches.now)) device }
    ensures askable { IfOk result IsAskable }
{
    let first = read_number(matches, FIRST_NSID, device)? as u32;
    let all = is_set(matches, ALL);
    Ok(Ask::Send(list_command(all, first - 1)))
}

/// Reads an `id-ns`.
pub(crate) fn id_ns<'a>(matches: &ArgMatches<'_>, device: Device) -> Result<Ask<'a>, LineFault>
    ensures value { result ≡ id_ns_of (rows_of (found_of matches.now)) device }
    ensures askable { IfOk result IsAskable }
{
    let nsid = read_number(matches, NSID, device)? as u32;
    let force = is_set(matches, FORCE);
    Ok(Ask::Send(namespace_command(force, nsid)))
}
