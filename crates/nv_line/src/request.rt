//! The request of a command line.

ghost use Rattle.std.specs.Prelude.{◌≡◌, ◌<◌, IfOk, map};
ghost use Rattle.clap.specs.Words.{found_of, rows_of};
ghost use Rattle.nv_line.specs.Ask.{IsAskable};
ghost use Rattle.nv_layout.specs.UnlessMemory.{IsUnlessMemory};
ghost use Rattle.nv_line.specs.Request.{IsQueryKnown, ask_of, request_of};

use crate::clap_rule::{MadeCommands, text_of};
use crate::device::{Device, read_device};
use crate::fault::LineFault;
use crate::features::{get_feature, set_feature};
use crate::format::format;
use crate::identify::{id_ns, list_ns};
use crate::logs::{error_log, smart_log};
use crate::management::{attachment, create_ns, delete_ns};
use crate::output_format::OutputFormat;
use crate::value::read_format;
use crate::verb::{DeviceVerb, OUTPUT_FORMAT, Verb};
use clap::ArgMatches;
use nv_command::Command;
use nv_layout::CtrlList;

/// What a controller is asked for.
#[derive(Debug, Drop, PartialEq, Eq)]
pub enum Ask<'a> {
    /// A command is sent to it.
    Send(Command<'a>),
    /// The newest entries of the error log, at most `entries` of them. Before that the controller
    /// is asked how many it keeps. Section "Error Information".
    ErrorLog { entries: u32 },
    /// It is reset. Section "Controller Level Reset".
    Reset,
}

/// What is asked for, and which controllers are asked.
#[derive(Debug, Drop, PartialEq, Eq)]
pub enum Query<'a> {
    /// One controller is asked, which is given by its place in the subsystem's file, counted from 0.
    One { controller: u16, ask: Ask<'a> },
    /// Each controller is asked for the namespaces that are attached to it.
    List,
}

/// What a line asks for, and the format of the answer.
#[derive(Debug, Drop, PartialEq, Eq)]
pub struct Request<'a> {
    pub query: Query<'a>,
    pub format: OutputFormat,
}

/// Reads what a command word asks for at a device. Listed controllers are written to `place`, whose
/// contents don't matter before.
#[inline(always)]
fn read_ask<'a>(
    matches: &ArgMatches<'_>,
    verb: DeviceVerb,
    device: Device,
    place: &'a mut CtrlList,
) -> Result<Ask<'a>, LineFault>
    ensures value { result ≡ ask_of verb (rows_of (found_of matches.now)) device }
    ensures askable { IfOk result IsAskable }
{
    match verb {
        DeviceVerb::IdCtrl => Ok(Ask::Send(Command::IdentifyController)),
        DeviceVerb::IdNs => id_ns(matches, device),
        DeviceVerb::ListNs => list_ns(matches, device),
        DeviceVerb::CreateNs => create_ns(matches, device),
        DeviceVerb::AttachNs => attachment(matches, device, false, place),
        DeviceVerb::DetachNs => attachment(matches, device, true, place),
        DeviceVerb::DeleteNs => delete_ns(matches, device),
        DeviceVerb::Format => format(matches, device),
        DeviceVerb::GetFeature => get_feature(matches, device),
        DeviceVerb::SetFeature => set_feature(matches, device),
        DeviceVerb::SmartLog => smart_log(matches, device),
        DeviceVerb::ErrorLog => error_log(matches, device),
        DeviceVerb::Reset => Ok(Ask::Reset),
    }
}

/// Reads what the words of a line with this command ask for. Listed controllers are written to `place`, whose
/// contents don't matter before.
pub(crate) fn read_request<'w, 'a>(
    commands: &mut MadeCommands<'w>,
    verb: Verb,
    words: &'w [&'w str],
    controllers: u16,
    place: &'a mut CtrlList,
) -> Result<Request<'a>, LineFault>
    ensures value { IsUnlessMemory LineFault.Memory (λ r. r) result
        (request_of controllers verb (map (λ w. w.now) words.now)) }
    ensures known { IfOk result (λ r. IsQueryKnown controllers r.query) }
{
    let matches = commands.matches(verb, words)?;
    let format = read_format(&matches, OUTPUT_FORMAT)?;
    let query = match verb {
        Verb::Of(verb) => {
            let path = text_of(&matches, "device").unwrap_or("");
            let device = read_device(path, controllers).ok_or(LineFault::Device)?;
            let ask = read_ask(&matches, verb, device, place)?;
            Query::One {
                controller: device.controller,
                ask,
            }
        }
        Verb::List => Query::List,
    };
    Ok(Request { query, format })
}
