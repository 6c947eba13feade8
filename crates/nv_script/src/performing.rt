//! One request: its orders, what their replies show, and the text of it.

ghost use Rattle.std.specs.Prelude.{◌≡◌, IfOk, length};
ghost use Rattle.nv_command.specs.Logs.{IsSendable};
ghost use Rattle.nv_layout.specs.Feature.{feature_of};
ghost use Rattle.nv_line.specs.Request.{IsAskKnown, IsQueryKnown};
ghost use Rattle.nv_print.specs.Message.{select_of};
ghost use Rattle.nv_driver.specs.BringingUp.{Still};
ghost use Rattle.nv_driver.specs.Linked.{IsLinked};
ghost use Rattle.nv_driver.specs.inner.Linked.{next_cids_of};
ghost use Rattle.nv_script.specs.EachShown.{EachIsShown};
ghost use Rattle.nv_script.specs.Going.{Goes, GoesAll};
ghost use Rattle.nv_script.specs.Shown.{feature_set, feature_value, output_of, shown_by, shown_done};
ghost use Rattle.nv_script.specs.inner.Orders.{log_command};
ghost use Rattle.nv_script.specs.inner.Performing.{AskLeaves, RequestLeaves};
ghost use Rattle.nv_script.specs.declared.performing.NoText.TheVariants as why;

use crate::listing::list;
use crate::session::Answers;
use nv_bus::Bus;
use nv_command::{Command, DwordCount, ERROR_INFORMATION, LogQuery, Reply};
use nv_driver::{Driver, Ringing, Zeroing};
use nv_layout::{Feature, Status, ThreeBits};
use nv_line::{Ask, OutputFormat, Query, Request};
use nv_print::{Memory, Select, Shown, json, text};
use std::alloc::{AllocError, Global};
use std::cmp;

/// Why a request has no text.
#[derive(Drop)]
pub enum NoText {
    /// A command was refused with this status.
    Refused(Status),
    /// Memory was refused.
    Memory,
    /// A controller isn't ready after a reset: a bus that keeps its contract has none.
    NoReady,
}

impl From<Status> for NoText {
    ghost from_gives = { λ status stop. stop ≡ why.Refused status };

    fn from(status: Status) -> NoText {
        NoText::Refused(status)
    }
}

impl From<Memory> for NoText {
    ghost from_gives = { λ _ stop. stop ≡ why.Memory };

    fn from(_: Memory) -> NoText {
        NoText::Memory
    }
}

impl From<AllocError> for NoText {
    ghost from_gives = { λ _ stop. stop ≡ why.Memory };

    fn from(_: AllocError) -> NoText {
        NoText::Memory
    }
}

/// Returns the command for `entries` entries of an error log, but no more than the controller
/// keeps, and at least one. The controller has told with `reply` how many it keeps.
fn log_command<'a>(entries: u32, reply: &Reply) -> Command<'a>
    ensures command { result ≡ log_command entries reply.now }
    ensures sendable { IsSendable result }
{
    let kept = match reply {
        Reply::Controller(controller) => u32::from(controller.get().elpe) + 1,
        _ => 1,
    };
    let count = cmp::max(cmp::min(entries, kept), 1);
    Command::GetLog(LogQuery {
        lid: ERROR_INFORMATION,
        nsid: 0,
        offset: 0,
        dwords: DwordCount::from_zeros_based(16 * count - 1),
    })
}

/// Carries out the orders of what a controller is asked, up to the first refusal, and returns the
/// last reply. `NoReady` comes from no bus that keeps its contract.
fn last_reply<'a, B: Bus + Ringing + Zeroing>(
    bus: &mut B,
    driver: &mut Driver,
    answers: &'a mut Answers,
    ctrl: u16,
    ask: &Ask,
) -> Result<Reply<'a>, NoText>
    requires linked { IsLinked (B.meaning bus.old) driver.old }
    requires known { IsAskKnown (length driver.old.pairs) ctrl ask.now }
    ensures left { AskLeaves result ctrl ask.now
        (B.meaning bus.old).state (next_cids_of driver.old)
        (B.meaning bus.new).state (next_cids_of driver.new)
        (GoesAll (Goes B.meaning B.was_written (Still B.was_read) B.was_zeroed B.was_rung B.was_turned)
        driver.old bus.old driver.new bus.new) }
    ensures linked { IsLinked (B.meaning bus.new) driver.new }
{
    let Answers { first, second, .. } = answers;
    match ask {
        Ask::Send(command) => {
            command.fits();
            Ok(driver.admin(bus, ctrl, command, first)?)
        }
        Ask::ErrorLog { entries } => {
            let identity = driver.admin(bus, ctrl, &Command::IdentifyController, first)?;
            let command = log_command(*entries, &identity);
            command.fits();
            Ok(driver.admin(bus, ctrl, &command, second)?)
        }
        Ask::Reset => match driver.reset(bus, ctrl) {
            Ok(()) => Ok(Reply::Done),
            Err(_) => Err(NoText::NoReady),
        },
    }
}

/// Returns the value of a feature, if both identifiers have a meaning.
fn feature_value<'a>(fid: u8, sel: ThreeBits, value: u32) -> Option<Shown<'a>>
    ensures { result ≡ feature_value (feature_of fid) (select_of sel) value }
{
    let feature = Feature::of(fid)?;
    let select = Select::of(sel)?;
    Some(Shown::FeatureValue {
        feature,
        select,
        value,
    })
}

/// Returns the value that a feature was set to, if its identifier has a meaning.
fn feature_set<'a>(fid: u8, value: u32, save: bool) -> Option<Shown<'a>>
    ensures { result ≡ feature_set (feature_of fid) value save }
{
    let feature = Feature::of(fid)?;
    Some(Shown::FeatureSet {
        feature,
        value,
        save,
    })
}

/// Returns what a success without a value shows.
fn shown_done<'a>(ask: &Ask) -> Option<Shown<'a>>
    ensures { result ≡ shown_done ask.now }
{
    match ask {
        Ask::Send(Command::Attachment { nsid, detach, .. }) => {
            if *detach {
                Some(Shown::Detached { nsid: *nsid })
            } else {
                Some(Shown::Attached { nsid: *nsid })
            }
        }
        Ask::Send(Command::Delete { nsid }) => Some(Shown::Deleted { nsid: *nsid }),
        Ask::Send(Command::Format(asked)) => Some(Shown::Formatted { nsid: asked.nsid }),
        Ask::Send(Command::SetFeature(asked)) => { feature_set(asked.fid, asked.value, asked.save) }
        Ask::Reset => Some(Shown::Reset),
        _ => None,
    }
}

/// Returns what an ask shows after the last reply to it.
fn shown<'a>(ask: &Ask, reply: Reply<'a>) -> Option<Shown<'a>>
    ensures { result ≡ shown_by ask.now reply.entry }
{
    match reply {
        Reply::Controller(identity) => Some(Shown::Controller(identity)),
        Reply::List(nsids) => Some(Shown::NsList(nsids)),
        Reply::Namespace(namespace) => Some(Shown::Namespace(namespace)),
        Reply::Smart(smart) => Some(Shown::Smart(smart)),
        Reply::Errors(errors) => Some(Shown::Errors(errors)),
        Reply::Number(number) => match ask {
            Ask::Send(Command::Create(_)) => Some(Shown::Created { nsid: number }),
            Ask::Send(Command::GetFeature(asked)) => feature_value(asked.fid, asked.sel, number),
            _ => None,
        },
        Reply::Done => shown_done(ask),
    }
}

/// Returns the text of what is shown in a format: as JSON if that is asked for and there is a JSON
/// form, and otherwise as text. It is empty if nothing is shown.
fn write(alloc: Global, format: OutputFormat, shown: &Option<Shown>) -> Result<Vec<u8>, Memory>
    ensures { IfOk result (λ bytes. bytes.items ≡ output_of format shown.now) }
{
    let Some(shown) = shown else {
        return Ok(Vec::new(alloc));
    };
    if format == OutputFormat::Json && shown.has_json() {
        json(alloc, shown)
    } else {
        text(alloc, shown)
    }
}

/// Carries out the orders of a request, up to the first refusal, and makes the text of what their
/// replies show, in the format that is asked for.
pub(crate) fn perform<B: Bus + Ringing + Zeroing>(
    alloc: Global,
    bus: &mut B,
    driver: &mut Driver,
    answers: &mut Answers,
    request: &Request,
) -> Result<Vec<u8>, NoText>
    requires linked { IsLinked (B.meaning bus.old) driver.old }
    requires known { IsQueryKnown (length driver.old.pairs) request.now.query }
    ensures left { RequestLeaves result request.now
        (B.meaning bus.old).state (next_cids_of driver.old)
        (B.meaning bus.new).state (next_cids_of driver.new)
        (GoesAll (Goes B.meaning B.was_written (Still B.was_read) B.was_zeroed B.was_rung B.was_turned)
        driver.old bus.old driver.new bus.new) }
    ensures linked { IsLinked (B.meaning bus.new) driver.new }
{
    match &request.query {
        Query::One { controller, ask } => {
            let reply = last_reply(bus, driver, answers, *controller, ask)?;
            let shown = shown(ask, reply);
            Ok(write(alloc, request.format, &shown)?)
        }
        Query::List => {
            let devices = list(alloc, bus, driver, answers)?;
            let shown = Some(Shown::Devices(devices));
            Ok(write(alloc, request.format, &shown)?)
        }
    }
}

/// States a law: whatever is accepted is shown. A query of which no order is refused shows
/// something, and `list` shows each namespace that is attached to each controller. The call does
/// nothing.
pub fn each_is_shown()
    ensures { EachIsShown }
{}
