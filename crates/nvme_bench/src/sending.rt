//! The commands that a driver sends for a line.

ghost use Rattle.std.specs.Prelude.{◌↔◌, All, IfOk, IsTrue};
ghost use Rattle.nv_command.specs.Command.{CommandFits};
ghost use Rattle.nv_command.specs.LogPage.{log_asked};
ghost use Rattle.nv_command.specs.Logs.{AreEntries, IsSendable, IsWhole};

use crate::arguments::array_of;
use crate::error::OperationError;
use nv_command::{Command, Decoded, DwordCount, LogPage, LogQuery};
use nv_layout::{CtrlList, Sqe};
use std::alloc::Global;

/// Returns whether this many dwords are 1 to 256 whole entries of an error log.
#[tactic(auto, using(crate::proofs::SendingLaws::entries_from, crate::proofs::SendingLaws::entries_to))]
fn are_entries(dwords: DwordCount) -> bool
    ensures { IsTrue result ↔ AreEntries dwords }
{
    let count = u64::from(dwords.zeros_based()) + 1;
    count % 16 == 0 && count <= 4096
}

/// Returns whether a query asks for a whole log: for entries of the error log from the first on, or
/// for the 512 bytes of another log.
fn is_whole(asked: &LogQuery) -> bool
    ensures { IsTrue result ↔ IsWhole (log_asked asked.now.lid) asked.now.offset asked.now.dwords }
{
    if asked.offset != 0 {
        return false;
    }
    match LogPage::asked(asked.lid) {
        LogPage::ErrorInformation => are_entries(asked.dwords),
        LogPage::Health => asked.dwords.bytes() == 512,
    }
}

/// Returns whether a driver can decode the reply to a command.
fn is_sendable(command: &Command) -> bool
    ensures { IsTrue result ↔ IsSendable command.now }
{
    match command {
        Command::GetLog(asked) => is_whole(asked),
        _ => true,
    }
}

/// Reads a command that a driver can send from its entry and the data sent with it.
pub(crate) fn read_command<'a>(
    entry: &[u8],
    sent: &[u8],
    place: &'a mut CtrlList,
) -> Result<Command<'a>, OperationError>
    ensures sends { IfOk result IsSendable }
    ensures fits { IfOk result CommandFits }
{
    let command = Decoded::of(&Sqe::get(&array_of(entry)))?.command(sent, place)?;
    command.fits();
    if is_sendable(&command) {
        Ok(command)
    } else {
        Err(OperationError::PartOfLog)
    }
}

/// Returns the piece with this number, from 0 on, of bytes in pieces of `size` bytes.
fn piece(bytes: &[u8], index: usize, size: usize) -> &[u8] {
    let start = index.saturating_mul(size).min(bytes.len());
    let end = start.saturating_add(size).min(bytes.len());
    &bytes[start..end]
}

/// Reads as many commands as there are places. Each has an entry of 64 bytes and 4,096 bytes of the
/// data.
pub(crate) fn read_commands<'a>(
    alloc: Global,
    entries: &[u8],
    sent: &[u8],
    places: &'a mut [CtrlList],
) -> Result<Vec<Command<'a>>, OperationError>
    ensures sends { IfOk result (λ commands. All IsSendable commands.items) }
    ensures fits { IfOk result (λ commands. All CommandFits commands.items) }
{
    let mut commands = Vec::new(alloc);
    for place in places {
        let index = commands.len();
        let entry = piece(entries, index, 64);
        match read_command(entry, piece(sent, index, 4096), place) {
            Ok(command) => commands.push(command)?,
            Err(error) => return Err(error),
        }
    }
    Ok(commands)
}
