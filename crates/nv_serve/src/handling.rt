//! Handles one request.

ghost use Rattle.std.specs.Prelude.{◌≡◌, ◌<◌, ◌≤◌, IfOk, IsOk, length, take};
ghost use Rattle.nv_layout.specs.Sqe.{SqeFits};
ghost use Rattle.nv_driver.specs.BringingUp.{Still};
ghost use Rattle.nv_driver.specs.Driver.{HasEntryPages};
ghost use Rattle.nv_driver.specs.Linked.{IsLinked};
ghost use Rattle.nv_serve.specs.Handling.{calls};
ghost use Rattle.nv_serve.specs.Header.{most_data};
ghost use Rattle.nv_serve.specs.Serving.{list_entry};
ghost use Rattle.nv_serve.specs.inner.Answer.{answer};
ghost use Rattle.nv_serve.specs.inner.Handling.{IsHandled, IsPassed};

use crate::answer::{AnswerHeader, Outcome};
use crate::header::{Header, Kind};
use nv_bus::Bus;
use nv_command::Command;
use nv_driver::{Driver, DriverError, Ringing, Zeroing};
use nv_layout::Sqe;

/// Returns the entry that asks for the list of a controller's active namespaces.
fn list_entry() -> Sqe
    ensures value { result ≡ list_entry }
    ensures fits { SqeFits result }
{
    Command::ActiveList { after: 0 }.entry(0)
}

/// Passes an entry through to the controller of a request, and returns the header of its answer. The
/// data for the host is at the front of a buffer.
fn pass<B: Bus + Zeroing + Ringing>(
    bus: &mut B,
    driver: &mut Driver,
    header: &Header,
    entry: &Sqe,
    sent: &[u8],
    received: &mut [u8],
) -> AnswerHeader
    requires linked { IsLinked (B.meaning bus.old) driver.old }
    requires room { HasEntryPages driver.old }
    requires ctrl { header.now.controller < length driver.old.pairs }
    requires fits { SqeFits entry.now }
    requires few { header.now.length ≤ most_data }
    requires long { length received.old ≡ most_data }
    ensures passed { IsPassed
        (calls B.meaning B.was_written (Still B.was_read) B.was_zeroed B.was_rung B.was_turned)
        header.now entry.now sent.now (answer result (take result.length received.new))
        driver.old bus.old driver.new bus.new }
    ensures linked { IsLinked (B.meaning bus.new) driver.new }
    ensures room { HasEntryPages driver.new }
    ensures few { result.length ≤ most_data }
    ensures long { length received.new ≡ most_data }
{
    let wanted = header.wanted_length();
    let out = &mut received[..wanted as usize];
    let command_result = driver.passthrough(bus, header.controller, entry, sent, out);
    AnswerHeader::returned(command_result.dword0, command_result.status, wanted)
}

/// Does what a request's header says, with the data that the host sent. The data for the host is at
/// the front of a buffer. The only error is `NoReady`, which no bus that keeps its contract returns.
pub(crate) fn handle<B: Bus + Zeroing + Ringing>(
    bus: &mut B,
    driver: &mut Driver,
    header: &Header,
    sent: &[u8],
    received: &mut [u8],
) -> Result<AnswerHeader, DriverError>
    requires linked { IsLinked (B.meaning bus.old) driver.old }
    requires room { HasEntryPages driver.old }
    requires fits { SqeFits header.now.entry }
    requires few { header.now.length ≤ most_data }
    requires long { length received.old ≡ most_data }
    ensures handled { IfOk result (λ returned. IsHandled
        (calls B.meaning B.was_written (Still B.was_read) B.was_zeroed B.was_rung B.was_turned)
        header.now sent.now (answer returned (take returned.length received.new))
        driver.old bus.old driver.new bus.new) }
    ensures ready { IsOk result }
    ensures linked { IsLinked (B.meaning bus.new) driver.new }
    ensures room { HasEntryPages driver.new }
    ensures few { IfOk result (λ returned. returned.length ≤ most_data) }
    ensures long { length received.new ≡ most_data }
{
    let controllers = driver.controllers();
    if usize::from(header.controller) >= controllers {
        return Ok(AnswerHeader::bare(Outcome::NoController));
    }
    match header.kind {
        Kind::Entry => Ok(pass(bus, driver, header, &header.entry, sent, received)),
        Kind::Reset => {
            driver.reset(bus, header.controller)?;
            Ok(AnswerHeader::bare(Outcome::Answered))
        }
        Kind::List => {
            let mut answer = pass(bus, driver, header, &list_entry(), &[], received);
            answer.dword0 = controllers as u32;
            Ok(answer)
        }
        Kind::Unknown => Ok(AnswerHeader::bare(Outcome::NoKind)),
    }
}
