//! The command `format`.

ghost use Rattle.std.specs.Prelude.{◌≡◌, IfOk};
ghost use Rattle.clap.specs.Words.{found_of, rows_of};
ghost use Rattle.nv_line.specs.Ask.{IsAskable};
ghost use Rattle.nv_line.specs.Commands.{format_of};

use crate::device::Device;
use crate::fault::LineFault;
use crate::request::Ask;
use crate::value::read_number;
use crate::verb::{LBAF, MS, NSID, PI, PIL, SES};
use clap::ArgMatches;
use nv_command::{Command, NewFormat};
use nv_layout::{FourBits, ThreeBits};

/// Reads a `format`.
pub(crate) fn format<'a>(matches: &ArgMatches<'_>, device: Device) -> Result<Ask<'a>, LineFault>
    ensures value { result ≡ format_of (rows_of (found_of matches.now)) device }
    ensures askable { IfOk result IsAskable }
{
    let nsid = read_number(matches, NSID, device)? as u32;
    let lbaf = FourBits::low(read_number(matches, LBAF, device)? as u8);
    let ses = ThreeBits::low(read_number(matches, SES, device)? as u8);
    let pi = ThreeBits::low(read_number(matches, PI, device)? as u8);
    let pil = read_number(matches, PIL, device)? == 1;
    let mset = read_number(matches, MS, device)? == 1;
    Ok(Ask::Send(Command::Format(NewFormat {
        nsid,
        lbaf,
        mset,
        pi,
        pil,
        ses,
    })))
}
