//! One line of a script: its bytes, if there is room for them, its commands, its text, and the write
//! of that text.

ghost use Rattle.std.specs.Prelude.{◌≡◌, ◌+◌, ◌<◌, ◌≤◌, ◌^◌, ◌↔◌, ℕ, [], List, Option, Some, None, false};
ghost use Rattle.std.specs.Prelude.{IfOk, IsTrue, if◌then◌else◌, length, take};
ghost use Rattle.nv_script.specs.Cuts.{left_at};
ghost use Rattle.nv_script.specs.inner.Feeding.{IsFailureOf, LineLeaves, PrintLeaves};
ghost use Rattle.nv_script.specs.inner.Feeding.{ReportLeaves, Stands};
ghost use Rattle.nv_layout.specs.UnlessMemory.{IsUnlessMemory};
ghost use Rattle.nv_line.specs.Line.{IsKnown, NeedsNoMemory, begun, reading};
ghost use Rattle.nv_line.specs.Word.{line_limit};
ghost use Rattle.nv_script.specs.Results.{Progress, message_at};
ghost use Rattle.nv_script.specs.inner.ScriptLines.{buffer_after, buffer_of};
ghost use Rattle.nv_driver.specs.BringingUp.{Still};
ghost use Rattle.nv_driver.specs.Linked.{IsLinked};
ghost use Rattle.nv_driver.specs.Settled.{DriverValue};
ghost use Rattle.nv_script.specs.Going.{Goes, GoesAll};

use crate::ends::RunEnd;
use crate::performing::{NoText, perform};
use crate::session::Session;
use nv_bus::Bus;
use nv_driver::{Ringing, Zeroing};
use nv_line::{CtrlList, LINE_LIMIT, Line, LineFault, LineReader};
use nv_print::{Fault, FaultCause, message};
use nv_stream::{Sink, write_all};
use std::marker::Model;

/// A line, or the fact that it has more than 4,095 bytes.
#[derive(Drop)]
pub struct LineBuffer {
    bytes: [u8; LINE_LIMIT],
    len: usize,
    is_too_long: bool,
}

impl Model for LineBuffer {
    ghost Value = { Option (List ℕ) };

    ghost view = { λ a. if a.is_too_long then None else Some (take a.len a.bytes) };

    ghost invariant = { λ a. a.len ≤ line_limit };
}

impl LineBuffer {
    pub(crate) fn new() -> Self
        ensures { result ≡ Some [] }
    {
        LineBuffer {
            bytes: [0; LINE_LIMIT],
            len: 0,
            is_too_long: false,
        }
    }

    pub(crate) fn extend(&mut self, bytes: &[u8])
        ensures { self.new ≡ buffer_after self.old bytes.now }
    {
        if bytes.len() <= LINE_LIMIT - self.len {
            let end = self.len + bytes.len();
            self.bytes[self.len..end].copy_from_slice(bytes);
            self.len = end;
        } else {
            self.is_too_long = true;
        }
    }

    /// Reads the line as what it asks for, or reports that it is too long, and empties the buffer.
    /// Listed controllers are written to `place`.
    fn read<'a>(
        &mut self,
        reader: &mut LineReader<'_>,
        controllers: u16,
        place: &'a mut CtrlList,
    ) -> Result<Line<'a>, LineFault>
        ensures said { (text : List ℕ) → self.old ≡ buffer_of text
            → IsUnlessMemory LineFault.Memory (λ l. l) result (reading text controllers) }
        ensures plain { (text : List ℕ) → self.old ≡ buffer_of text → NeedsNoMemory (begun text)
            → result ≡ reading text controllers }
        ensures known { IfOk result (IsKnown controllers) }
        ensures emptied { self.new ≡ Some [] }
    {
        let len = self.len;
        self.len = 0;
        if self.is_too_long {
            self.is_too_long = false;
            return Err(LineFault::TooLong);
        }
        reader.read(&self.bytes[..len], controllers, place)
    }

    pub(crate) fn is_empty(&self) -> bool
        ensures { IsTrue result ↔ (self.now ≡ Some []) }
    {
        !self.is_too_long && self.len == 0
    }
}

/// Writes a text. `fault` is the end of the run if the sink fails.
fn print<S: Sink>(sink: &mut S, text: &[u8], fault: RunEnd) -> Result<(), RunEnd>
    requires { (S.state sink.old).has_failed ≡ false }
    ensures { PrintLeaves result fault text.now (S.state sink.old).taken (S.state sink.new).taken
        (S.state sink.new).has_failed }
{
    if write_all(sink, text) {
        Ok(())
    } else {
        Err(fault)
    }
}

/// Writes the message of what is wrong with the line that is executed. It is made before its first
/// byte is written.
fn report<M: Sink>(session: &Session, messages: &mut M, cause: FaultCause) -> Result<(), RunEnd>
    requires { (M.state messages.old).has_failed ≡ false }
    ensures { ReportLeaves result (message_at session.now.number cause)
        (M.state messages.old).taken (M.state messages.new).taken (M.state messages.new).has_failed }
{
    let fault = Fault {
        line: session.number,
        cause,
    };
    let Ok(text) = message(session.alloc, &fault) else {
        return Err(RunEnd::Memory);
    };
    print(messages, &text, RunEnd::MessageWrite)
}

/// Executes the line in the buffer, and empties it.
pub(crate) fn execute_line<B: Bus + Ringing + Zeroing, O: Sink, M: Sink>(
    bus: &mut B,
    session: &mut Session,
    out: &mut O,
    messages: &mut M,
    reader: &mut LineReader<'_>,
    line: &mut LineBuffer,
) -> Result<(), RunEnd>
    requires out_ready { (O.state out.old).has_failed ≡ false }
    requires messages_ready { (M.state messages.old).has_failed ≡ false }
    requires linked { IsLinked (B.meaning bus.old) session.old.driver }
    requires number { session.old.number + 1 < 2 ^ 64 }
    // If the run was at p, it is then after p and this line, or was cut short in this line.
    ensures left { (text : List ℕ) (p : Progress) (o m : Option (List ℕ)) (d : DriverValue) (up : B)
        → let goes = Goes B.meaning B.was_written (Still B.was_read) B.was_zeroed B.was_rung B.was_turned in
        line.old ≡ buffer_of text
        → Stands p
        (left_at o (O.state out.old).taken m (M.state messages.old).taken (B.meaning bus.old).state
        (GoesAll goes d up session.old.driver bus.old))
        session.old
        → LineLeaves result p text
        (left_at o (O.state out.new).taken m (M.state messages.new).taken (B.meaning bus.new).state
        (GoesAll goes d up session.new.driver bus.new))
        session.new }
    ensures failure { IsFailureOf result
        (O.state out.new).has_failed (M.state messages.new).has_failed }
    ensures linked { IsLinked (B.meaning bus.new) session.new.driver }
    ensures number { session.new.number ≡ session.old.number + 1 }
    ensures emptied { line.new ≡ Some [] }
{
    session.number += 1;
    let said = match line.read(reader, bus.controllers(), &mut session.listed) {
        Ok(said) => said,
        Err(fault) => match fault {
            LineFault::Memory => return Err(RunEnd::Memory),
            fault => {
                session.status = 1;
                return report(session, messages, FaultCause::Line(fault));
            }
        },
    };
    match said {
        Line::Skipped => Ok(()),
        Line::Request(request) => match perform(
            session.alloc,
            bus,
            &mut session.driver,
            &mut session.answers,
            &request,
        ) {
            Ok(text) => {
                session.status = 0;
                print(out, &text, RunEnd::OutWrite)
            }
            Err(NoText::Memory) => Err(RunEnd::Memory),
            Err(NoText::NoReady) => Err(RunEnd::NoReady),
            Err(NoText::Refused(status)) => {
                session.status = 2;
                report(session, messages, FaultCause::Refused(status))
            }
        },
    }
}
