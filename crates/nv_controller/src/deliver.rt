//! Executes a command, and writes the data of its reply to the host's memory.

ghost use Rattle.std.specs.Prelude.{◌≡◌, ◌<◌, ◌≤◌, length};
ghost use Rattle.nv_command.specs.Command.{transfer_by};
ghost use Rattle.nv_command.specs.Reply.{FitsRecord, IsReplyTo, data_of};
ghost use Rattle.nv_prp.specs.Place.{LieIn, places, written_at};
ghost use Rattle.nv_prp.specs.Transfer.{most_bytes};
ghost use Rattle.nv_model.specs.Meaning.{refusal_of};
ghost use Rattle.nv_model.specs.Step.{step};
ghost use Rattle.nv_model.specs.WellFormed.{IsWellFormed};
ghost use Rattle.nv_bus.specs.Call.{length_of};
ghost use Rattle.nv_bus.specs.Entry.{Moves, command_result_of};
ghost use Rattle.nv_controller.specs.Tags.{answered_with};
ghost use Rattle.nv_subsystem.specs.Tagged.{settled, untagged};

use crate::entry_room::EntryData;
use crate::reply_data::ReplyData;
use nv_bus::CommandResult;
use nv_command::{Command, Reply, Transfer};
use nv_host::PagedMemory;
use nv_layout::Status;
use nv_prp::{Spans, write_out};
use nv_subsystem::{Origin, Subsystem, dword0};

/// Writes the data of the reply to a command to where the entry's data lies, if it has any.
#[tactic(auto, using(crate::proofs::DataLaws::log_length))]
fn deliver<M: PagedMemory>(
    mem: &mut M,
    command: &Command,
    reply: &Reply,
    transfer: Transfer,
    spans: &Spans,
)
    requires transfer { transfer ≡ transfer_by command.now }
    requires inside { LieIn (length (M.bytes mem.old)) spans.now }
    requires len { length (places spans.now) ≡ length_of (transfer_by command.now) }
    requires few { length (places spans.now) ≤ most_bytes }
    requires is_reply { IsReplyTo command.now reply.now }
    requires fits { FitsRecord reply.now }
    ensures bytes { M.bytes mem.new
        ≡ written_at (M.bytes mem.old) (places spans.now) (data_of command.now reply.now) }
    ensures len { length (M.bytes mem.new) ≡ length (M.bytes mem.old) }
    ensures page_len { M.page_len mem.new ≡ M.page_len mem.old }
{
    if let Transfer::ToHost(_) = transfer {
        write_out(mem, spans, &ReplyData { command, reply });
    }
}

/// Executes a command: writes the data of its reply, and then makes its changes.
pub(crate) fn execute<M: PagedMemory>(
    subsystem: &mut Subsystem,
    ctrl: u16,
    mem: &mut M,
    command: &Command,
    origin: Origin,
    entry_data: &mut EntryData,
) -> CommandResult
    requires ctrl { ctrl < length subsystem.old.controllers }
    requires well_formed { IsWellFormed subsystem.old }
    requires transfer { entry_data.old.transfer ≡ transfer_by command.now }
    requires inside { LieIn (length (M.bytes mem.old)) entry_data.old.spans }
    requires len { length (places entry_data.old.spans) ≡ length_of (transfer_by command.now) }
    requires few { length (places entry_data.old.spans) ≤ most_bytes }
    ensures command_result { result
        ≡ command_result_of (step (untagged subsystem.old) ctrl command.now origin.cid).answer }
    ensures state { untagged subsystem.new
        ≡ (step (untagged subsystem.old) ctrl command.now origin.cid).state }
    ensures tagged { subsystem.new ≡ settled subsystem.old ctrl command.now origin
        (refusal_of subsystem.old ctrl command.now) }
    ensures bytes { M.bytes mem.new ≡ answered_with (refusal_of subsystem.old ctrl command.now)
        subsystem.old ctrl command.now (places entry_data.old.spans) (M.bytes mem.old) }
    ensures moved { Moves command.now (places entry_data.old.spans)
        (step (untagged subsystem.old) ctrl command.now origin.cid).answer
        (M.bytes mem.old) (M.bytes mem.new) }
    ensures well_formed { IsWellFormed subsystem.new }
    ensures len { length (M.bytes mem.new) ≡ length (M.bytes mem.old) }
    ensures page_len { M.page_len mem.new ≡ M.page_len mem.old }
{
    match subsystem.answer(ctrl, command, &mut entry_data.room) {
        Ok(reply) => {
            deliver(mem, command, &reply, entry_data.transfer, &entry_data.spans);
            let dword0 = dword0(&reply);
            subsystem.settle(ctrl, command, origin, Ok(dword0), &mut entry_data.room);
            CommandResult {
                dword0,
                status: Status::SUCCESS,
            }
        }
        Err(refusal) => {
            subsystem.settle(ctrl, command, origin, Err(refusal), &mut entry_data.room);
            CommandResult {
                dword0: 0,
                status: refusal.status,
            }
        }
    }
}
