//! Runs a script, line by line as its newlines are read.

ghost use Rattle.std.specs.Prelude.{◌≡◌, ◌≢◌, ◌↔◌, ◌+◌, ◌<◌, ◌≤◌, ◌^◌, List, Option, Some, ℕ};
ghost use Rattle.std.specs.Prelude.{false, true, length, OnOk};
ghost use Rattle.nv_model.specs.State.{State};
ghost use Rattle.nv_bus.specs.Bus.{IsBus};
ghost use Rattle.nv_script.specs.Cuts.{left_at};
ghost use Rattle.nv_script.specs.Ends.{IsRun, RunsFrom, run_state};
ghost use Rattle.nv_script.specs.inner.Feeding.{IsFailureOf, LastLeaves, PieceLeaves, Stands};
ghost use Rattle.nv_script.specs.ScriptLines.{read_limit, pieces};
ghost use Rattle.nv_script.specs.inner.ScriptLines.{buffer_of};
ghost use Rattle.nv_driver.specs.BringingUp.{BringsUp, Still};
ghost use Rattle.nv_driver.specs.Linked.{IsLinked};
ghost use Rattle.nv_driver.specs.Settled.{DriverValue};
ghost use Rattle.nv_script.specs.Going.{Goes, GoesAll};
ghost use Rattle.nv_script.specs.inner.Link.{IsFirst};
ghost use Rattle.nv_script.specs.Results.{whole};
ghost use Rattle.nv_stream.specs.Streams.{IsFresh};

use crate::ends::RunEnd;
use crate::executing::{LineBuffer, execute_line};
use crate::session::Session;
use bumpalo::Bump;
use memchr::memchr;
use nv_bus::Bus;
use nv_driver::{Geometry, Ringing, Zeroing};
use nv_line::LineReader;
use nv_stream::{READ_SIZE, Sink, Source};
use std::alloc::Global;

/// The size of the memory for the lines that end in one piece of a script, and for their words. It
/// is allocated at once, so a run of many lines uses no more than one of a few.
const LINE_ROOM: usize = 32_768;

/// Creates the memory for lines and their words, which grows if they need more.
fn line_room(alloc: Global) -> Bump {
    match Bump::try_with_capacity(alloc, LINE_ROOM) {
        Ok(room) => room,
        Err(_) => Bump::new(alloc),
    }
}

/// Executes the lines that end in a piece of a script, and keeps what follows its last newline.
fn feed<B: Bus + Ringing + Zeroing, O: Sink, M: Sink>(
    bus: &mut B,
    session: &mut Session,
    out: &mut O,
    messages: &mut M,
    line: &mut LineBuffer,
    piece: &[u8],
) -> Result<(), RunEnd>
    requires out_ready { (O.state out.old).has_failed ≡ false }
    requires messages_ready { (M.state messages.old).has_failed ≡ false }
    requires linked { IsLinked (B.meaning bus.old) session.old.driver }
    requires number { session.old.number + length piece.now < 2 ^ 64 }
    ensures left { (s : State) (bytes : List ℕ) (o m : Option (List ℕ)) (d : DriverValue) (up : B)
        → let goes = Goes B.meaning B.was_written (Still B.was_read) B.was_zeroed B.was_rung B.was_turned in
        line.old ≡ buffer_of (pieces bytes).last
        → Stands (whole s (pieces bytes).ended)
        (left_at o (O.state out.old).taken m (M.state messages.old).taken (B.meaning bus.old).state
        (GoesAll goes d up session.old.driver bus.old))
        session.old
        → PieceLeaves result s bytes piece.now line.new
        (left_at o (O.state out.new).taken m (M.state messages.new).taken (B.meaning bus.new).state
        (GoesAll goes d up session.new.driver bus.new))
        session.new }
    ensures failure { IsFailureOf result
        (O.state out.new).has_failed (M.state messages.new).has_failed }
    ensures linked { IsLinked (B.meaning bus.new) session.new.driver }
    ensures number { OnOk result (session.new.number ≤ session.old.number + length piece.now) }
{
    let room = line_room(session.alloc);
    let mut reader = LineReader::new(session.alloc, &room);
    let mut rest = piece;
    while let Some(end) = memchr(b'\n', rest) {
        line.extend(&rest[..end]);
        execute_line(bus, session, out, messages, &mut reader, line)?;
        rest = &rest[end + 1..];
    }
    line.extend(rest);
    Ok(())
}

/// Executes the last piece of a script, if it isn't empty.
fn finish<B: Bus + Ringing + Zeroing, O: Sink, M: Sink>(
    bus: &mut B,
    session: &mut Session,
    out: &mut O,
    messages: &mut M,
    line: &mut LineBuffer,
) -> Result<u8, RunEnd>
    requires out_ready { (O.state out.old).has_failed ≡ false }
    requires messages_ready { (M.state messages.old).has_failed ≡ false }
    requires linked { IsLinked (B.meaning bus.old) session.old.driver }
    requires number { session.old.number + 1 < 2 ^ 64 }
    ensures left { (s : State) (bytes : List ℕ) (o m : Option (List ℕ)) (d : DriverValue) (up : B)
        → let goes = Goes B.meaning B.was_written (Still B.was_read) B.was_zeroed B.was_rung B.was_turned in
        line.old ≡ buffer_of (pieces bytes).last
        → Stands (whole s (pieces bytes).ended)
        (left_at o (O.state out.old).taken m (M.state messages.old).taken (B.meaning bus.old).state
        (GoesAll goes d up session.old.driver bus.old))
        session.old
        → LastLeaves result s bytes
        (left_at o (O.state out.new).taken m (M.state messages.new).taken (B.meaning bus.new).state
        (GoesAll goes d up session.new.driver bus.new)) }
    ensures failure { IsFailureOf result
        (O.state out.new).has_failed (M.state messages.new).has_failed }
    ensures linked { IsLinked (B.meaning bus.new) session.new.driver }
{
    let room = line_room(session.alloc);
    let mut reader = LineReader::new(session.alloc, &room);
    if !line.is_empty() {
        execute_line(bus, session, out, messages, &mut reader, line)?;
    }
    Ok(session.status)
}

/// Runs a script with at most this many reads. Each line is executed when its newline is read.
fn run_session<B: Bus + Ringing + Zeroing, R: Source, O: Sink, M: Sink>(
    bus: &mut B,
    session: &mut Session,
    script: &mut R,
    out: &mut O,
    messages: &mut M,
    reads: u32,
) -> RunEnd
    requires linked { IsLinked (B.meaning bus.old) session.old.driver }
    requires first { IsFirst (B.meaning bus.old).state session.old }
    requires fresh_script { IsFresh (R.state script.old) }
    requires fresh_out { (O.state out.old).has_failed ≡ false }
    requires fresh_messages { (M.state messages.old).has_failed ≡ false }
    requires some_read { 0 < reads }
    ensures runs { RunsFrom (B.meaning bus.old).state reads result
        (GoesAll (Goes B.meaning B.was_written (Still B.was_read) B.was_zeroed B.was_rung B.was_turned)
        session.old.driver bus.old session.new.driver bus.new)
        (run_state (B.meaning bus.old) (R.state script.old) (O.state out.old)
        (M.state messages.old))
        (run_state (B.meaning bus.new) (R.state script.new) (O.state out.new)
        (M.state messages.new)) }
    ensures linked { IsLinked (B.meaning bus.new) session.new.driver }
{
    let mut line = LineBuffer::new();
    let mut piece = [0u8; READ_SIZE];
    for call in 0..reads {
        let Some(count) = script.read(&mut piece) else {
            return RunEnd::Read;
        };
        if count == 0 {
            if call + 1 == reads {
                return RunEnd::Read;
            }
            return match finish(bus, session, out, messages, &mut line) {
                Ok(status) => RunEnd::Status(status),
                Err(cut) => cut,
            };
        }
        let piece = &piece[..count];
        if let Err(cut) = feed(bus, session, out, messages, &mut line, piece) {
            return cut;
        }
    }
    RunEnd::Read
}

/// The greatest number of reads of one run.
pub const READ_LIMIT: u32 = u32::MAX;

/// Runs a script as `run` does, with at most `reads` reads. The bytes of the last read count, and
/// after it the run ends as after a failed read, whatever it returned.
pub fn run_within<B: Bus + Ringing + Zeroing, R: Source, O: Sink, M: Sink>(
    alloc: Global,
    bus: &mut B,
    geometry: Geometry,
    script: &mut R,
    out: &mut O,
    messages: &mut M,
    reads: u32,
) -> RunEnd
    requires bus { IsBus (B.meaning bus.old) }
    requires fresh_script { IsFresh (R.state script.old) }
    requires fresh_out { (O.state out.old).has_failed ≡ false }
    requires fresh_messages { (M.state messages.old).has_failed ≡ false }
    requires some_read { 0 < reads }
    // The main promise: how the run ends, what each end leaves behind, and when each fault comes.
    ensures run { IsRun (BringsUp B.was_written (Still B.was_read) B.was_zeroed)
        (Goes B.meaning B.was_written (Still B.was_read) B.was_zeroed B.was_rung B.was_turned)
        geometry reads result bus.old bus.new
        (run_state (B.meaning bus.old) (R.state script.old) (O.state out.old)
        (M.state messages.old))
        (run_state (B.meaning bus.new) (R.state script.new) (O.state out.new)
        (M.state messages.new)) }
    // The bus can be used for another run.
    ensures bus { IsBus (B.meaning bus.new) }
{
    match Session::begin(alloc, bus, geometry) {
        Ok(mut session) => run_session(bus, &mut session, script, out, messages, reads),
        Err(end) => end,
    }
}

/// Runs a script on the subsystem of a bus, with a driver of this geometry. Each controller that is
/// enabled is reset. Then the lines are executed in order, each as soon as its newline is read. The
/// texts of what they ask for are written to `out`, and the messages about faults and refusals to
/// `messages`. At most 4,294,967,295 reads are made, and none after one that returned no byte or
/// failed. If the geometry is outside its limits, nothing is read or written, and the subsystem
/// doesn't change.
pub fn run<B: Bus + Ringing + Zeroing, R: Source, O: Sink, M: Sink>(
    alloc: Global,
    bus: &mut B,
    geometry: Geometry,
    script: &mut R,
    out: &mut O,
    messages: &mut M,
) -> RunEnd
    requires bus { IsBus (B.meaning bus.old) }
    requires fresh_script { IsFresh (R.state script.old) }
    requires fresh_out { (O.state out.old).has_failed ≡ false }
    requires fresh_messages { (M.state messages.old).has_failed ≡ false }
    // The main promise: how the run ends, what each end leaves behind, and when each fault comes.
    ensures run { IsRun (BringsUp B.was_written (Still B.was_read) B.was_zeroed)
        (Goes B.meaning B.was_written (Still B.was_read) B.was_zeroed B.was_rung B.was_turned)
        geometry read_limit result bus.old bus.new
        (run_state (B.meaning bus.old) (R.state script.old) (O.state out.old)
        (M.state messages.old))
        (run_state (B.meaning bus.new) (R.state script.new) (O.state out.new)
        (M.state messages.new)) }
    // The bus can be used for another run.
    ensures bus { IsBus (B.meaning bus.new) }
{
    run_within(alloc, bus, geometry, script, out, messages, READ_LIMIT)
}
