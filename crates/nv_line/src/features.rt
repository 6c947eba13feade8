//! The commands of features: `get-feature` and `set-feature`.

ghost use Rattle.std.specs.Prelude.{◌≡◌, IfOk};
ghost use Rattle.clap.specs.Words.{found_of, rows_of};
ghost use Rattle.nv_line.specs.Ask.{IsAskable};
ghost use Rattle.nv_line.specs.Commands.{get_feature_of, set_feature_of};

use crate::device::Device;
use crate::fault::LineFault;
use crate::request::Ask;
use crate::value::{is_set, read_number};
use crate::verb::{CDW11, FEATURE_ID, FEATURE_NSID, SAVE, SEL, VALUE};
use clap::ArgMatches;
use nv_command::{Command, FeatureQuery, FeatureSetting};
use nv_layout::ThreeBits;

/// Reads a `get-feature`.
pub(crate) fn get_feature<'a>(
    matches: &ArgMatches<'_>,
    device: Device,
) -> Result<Ask<'a>, LineFault>
    ensures value { result ≡ get_feature_of (rows_of (found_of matches.now)) device }
    ensures askable { IfOk result IsAskable }
{
    let nsid = read_number(matches, FEATURE_NSID, device)? as u32;
    let fid = read_number(matches, FEATURE_ID, device)? as u8;
    let sel = ThreeBits::low(read_number(matches, SEL, device)? as u8);
    let cdw11 = read_number(matches, CDW11, device)? as u32;
    Ok(Ask::Send(Command::GetFeature(FeatureQuery {
        fid,
        sel,
        nsid,
        cdw11,
    })))
}

/// Reads a `set-feature`.
pub(crate) fn set_feature<'a>(
    matches: &ArgMatches<'_>,
    device: Device,
) -> Result<Ask<'a>, LineFault>
    ensures value { result ≡ set_feature_of (rows_of (found_of matches.now)) device }
    ensures askable { IfOk result IsAskable }
{
    let nsid = read_number(matches, FEATURE_NSID, device)? as u32;
    let fid = read_number(matches, FEATURE_ID, device)? as u8;
    let value = read_number(matches, VALUE, device)? as u32;
    let save = is_set(matches, SAVE);
    Ok(Ask::Send(Command::SetFeature(FeatureSetting {
        fid,
        value,
        save,
        nsid,
    })))
}
