//! The commands of namespace management: `create-ns`, `attach-ns`, `detach-ns` and `delete-ns`.

ghost use Rattle.std.specs.Prelude.{◌≡◌, IfOk};
ghost use Rattle.clap.specs.Words.{found_of, rows_of};
ghost use Rattle.nv_line.specs.Ask.{IsAskable};
ghost use Rattle.nv_line.specs.Commands.{attachment_of, create_ns_of, delete_ns_of};

use crate::device::Device;
use crate::fault::LineFault;
use crate::request::Ask;
use crate::value::{read_list, read_number};
use crate::verb::{CONTROLLERS, DPS, FLBAS, NCAP, NMIC, NSID, NSZE};
use clap::ArgMatches;
use nv_command::{Command, NewNamespace};
use nv_layout::CtrlList;

/// Reads a `create-ns`.
pub(crate) fn create_ns<'a>(matches: &ArgMatches<'_>, device: Device) -> Result<Ask<'a>, LineFault>
    ensures value { result ≡ create_ns_of (rows_of (found_of matches.now)) device }
    ensures askable { IfOk result IsAskable }
{
    let nsze = read_number(matches, NSZE, device)?;
    let ncap = read_number(matches, NCAP, device)?;
    let flbas = read_number(matches, FLBAS, device)? as u8;
    let dps = read_number(matches, DPS, device)? as u8;
    let nmic = read_number(matches, NMIC, device)? as u8;
    Ok(Ask::Send(Command::Create(NewNamespace {
        nsze,
        ncap,
        flbas,
        dps,
        nmic,
    })))
}

/// Reads an `attach-ns` or a `detach-ns`, with the controllers in the order given. They are written
/// to `place`, whose contents don't matter before.
pub(crate) fn attachment<'a>(
    matches: &ArgMatches<'_>,
    device: Device,
    detach: bool,
    place: &'a mut CtrlList,
) -> Result<Ask<'a>, LineFault>
    ensures value { result ≡ attachment_of detach (rows_of (found_of matches.now)) device }
    ensures askable { IfOk result IsAskable }
{
    let nsid = read_number(matches, NSID, device)? as u32;
    let list = read_list(matches, CONTROLLERS, place)?;
    Ok(Ask::Send(Command::Attachment { nsid, detach, list }))
}

/// Reads a `delete-ns`.
pub(crate) fn delete_ns<'a>(matches: &ArgMatches<'_>, device: Device) -> Result<Ask<'a>, LineFault>
    ensures value { result ≡ delete_ns_of (rows_of (found_of matches.now)) device }
    ensures askable { IfOk result IsAskable }
{
    let nsid = read_number(matches, NSID, device)? as u32;
    Ok(Ask::Send(Command::Delete { nsid }))
}
