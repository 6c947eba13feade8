//! Takes one entry: reads its command, finds its data, and executes it.

ghost use Rattle.std.specs.Prelude.{◌≡◌, ◌<◌, ◌≤◌, Ok, Err, IfOk, MatchResult, OnOk, length, true};
ghost use Rattle.nv_command.specs.Command.{transfer_by};
ghost use Rattle.nv_prp.specs.Place.{LieIn, places};
ghost use Rattle.nv_prp.specs.Transfer.{most_bytes};
ghost use Rattle.nv_model.specs.WellFormed.{IsWellFormed};
ghost use Rattle.nv_bus.specs.Call.{HasRoom, call_of, data_places, length_of, prp_status};
ghost use Rattle.nv_bus.specs.Call.{sent_from};
ghost use Rattle.nv_bus.specs.Entry.{MovesBy, One, exchange_in, scene, step_unless, command_result_of};
ghost use Rattle.nv_model.specs.Conditions.{limit_of};
ghost use Rattle.nv_bus.specs.Turn.{can_take, reaches};
ghost use Rattle.nv_controller.specs.Tags.{answered_unless, next_scene, settled_unless};
ghost use Rattle.nv_subsystem.specs.Tagged.{untagged};

use crate::deliver::execute;
use crate::entry_room::{EntryData, EntryRoom};
use nv_bus::{CommandResult, Exchange};
use nv_command::{Command, Decoded, Refusal, StatusCode, Transfer};
use nv_host::PagedMemory;
use nv_layout::{Cqe, CtrlList, Sqe};
use nv_prp::{PrpError, Spans, view_in, walk};
use nv_register::Rings;
use nv_subsystem::{Origin, Subsystem};

/// Returns the status of a faulty data pointer. Section "Generic Command Status Definition".
fn prp_status(fault: PrpError) -> StatusCode
    ensures { result ≡ prp_status fault }
{
    match fault {
        PrpError::Offset => StatusCode::PrpOffsetInvalid,
        PrpError::Outside => StatusCode::DataTransferError,
    }
}

/// Finds where an entry's data lies.
#[tactic(auto, unfolding(nv_bus::specs::Call::places_of))]
fn find_data<M: PagedMemory>(
    mem: &M,
    entry: &Sqe,
    moves: Transfer,
    spans: &mut Spans,
) -> Result<(), StatusCode>
    requires room { HasRoom moves }
    ensures found { let bytes = M.bytes mem.now in
        let found = data_places (M.page_len mem.now) bytes entry.now moves in
        MatchResult result (λ _. found ≡ Ok (places spans.new)) (λ code. found ≡ Err code) }
    ensures inside { OnOk result (LieIn (length (M.bytes mem.now)) spans.new) }
    ensures len { OnOk result (length (places spans.new) ≡ length_of moves) }
    ensures few { OnOk result (length (places spans.new) ≤ most_bytes) }
{
    match moves {
        Transfer::NoData => {
            spans.clear();
            Ok(())
        }
        Transfer::ToHost(len) | Transfer::FromHost(len) => {
            match walk(mem, entry.prp1, entry.prp2, len as u32, spans) {
                Ok(()) => Ok(()),
                Err(fault) => Err(prp_status(fault)),
            }
        }
    }
}

/// Returns the bytes that the host sends, if it sends any: where they lie, or else a copy in `page`.
fn read_sent<'a, M: PagedMemory>(
    mem: &'a M,
    moves: Transfer,
    spans: &Spans,
    page: &'a mut [u8; 4096],
) -> &'a [u8]
    requires room { HasRoom moves }
    requires inside { LieIn (length (M.bytes mem.now)) spans.now }
    requires len { length (places spans.now) ≡ length_of moves }
    ensures { result.now ≡ sent_from moves (M.bytes mem.now) (places spans.now) }
{
    match moves {
        Transfer::NoData | Transfer::ToHost(_) => &[],
        Transfer::FromHost(len) => view_in(mem, spans, &mut page[..len as usize]),
    }
}

/// Returns the command of an entry, or the status of the first rule that the entry or its data
/// breaks. The data has at most `limit` bytes. `entry_data` receives where it lies, and what the
/// host sends if that isn't in one page, and `listed` the controllers that it lists.
fn read_call<'a, M: PagedMemory>(
    mem: &M,
    entry: &Sqe,
    limit: u64,
    entry_data: &mut EntryData,
    listed: &'a mut CtrlList,
) -> Result<Command<'a>, StatusCode>
    requires { limit ≤ most_bytes }
    ensures found { let found = call_of (M.page_len mem.now) limit (M.bytes mem.now) entry.now in
        MatchResult result
        (λ command. found ≡ Ok (record { command = command; places = places entry_data.new.spans }))
        (λ code. found ≡ Err code) }
    ensures transfer { IfOk result (λ command. entry_data.new.transfer ≡ transfer_by command) }
    ensures inside { OnOk result (LieIn (length (M.bytes mem.now)) entry_data.new.spans) }
    ensures len { IfOk result
        (λ command. length (places entry_data.new.spans) ≡ length_of (transfer_by command)) }
    ensures few { OnOk result (length (places entry_data.new.spans) ≤ most_bytes) }
{
    let asked = Decoded::of(entry)?;
    let moves = asked.transfer();
    if limit < moves.bytes() {
        return Err(StatusCode::InvalidFieldInCommand);
    }
    entry_data.transfer = moves;
    find_data(mem, entry, moves, &mut entry_data.spans)?;
    let sent = read_sent(mem, moves, &entry_data.spans, &mut entry_data.page);
    asked.command(sent, listed)
}

/// Executes the command of an entry and writes the data of its reply, or refuses the entry. `phase`
/// is the phase tag that its completion will have.
fn answer_entry<M: PagedMemory>(
    subsystem: &mut Subsystem,
    ctrl: u16,
    mem: &mut M,
    entry: &Sqe,
    phase: bool,
    room: &mut EntryRoom,
) -> CommandResult
    requires ctrl { ctrl < length subsystem.old.controllers }
    requires well_formed { IsWellFormed subsystem.old }
    ensures command_result { let call = call_of (M.page_len mem.old)
        (limit_of subsystem.old ctrl) (M.bytes mem.old) entry.now in
        result ≡ command_result_of (step_unless call (untagged subsystem.old) ctrl entry.now).answer }
    ensures state { let call = call_of (M.page_len mem.old)
        (limit_of subsystem.old ctrl) (M.bytes mem.old) entry.now in
        untagged subsystem.new
        ≡ (step_unless call (untagged subsystem.old) ctrl entry.now).state }
    ensures tagged { let call = call_of (M.page_len mem.old)
        (limit_of subsystem.old ctrl) (M.bytes mem.old) entry.now in
        subsystem.new ≡ settled_unless call subsystem.old ctrl entry.now phase }
    ensures bytes { let call = call_of (M.page_len mem.old)
        (limit_of subsystem.old ctrl) (M.bytes mem.old) entry.now in
        M.bytes mem.new ≡ answered_unless call subsystem.old ctrl (M.bytes mem.old) }
    ensures moved { let call = call_of (M.page_len mem.old)
        (limit_of subsystem.old ctrl) (M.bytes mem.old) entry.now in
        MovesBy call (step_unless call (untagged subsystem.old) ctrl entry.now).answer
        (M.bytes mem.old) (M.bytes mem.new) }
    ensures well_formed { IsWellFormed subsystem.new }
    ensures controllers { length subsystem.new.controllers ≡ length subsystem.old.controllers }
    ensures len { length (M.bytes mem.new) ≡ length (M.bytes mem.old) }
    ensures page_len { M.page_len mem.new ≡ M.page_len mem.old }
{
    let origin = Origin {
        cid: entry.cid,
        phase,
    };
    let EntryRoom { entry_data, listed } = room;
    let limit = subsystem.limit(ctrl);
    match read_call(mem, entry, limit, entry_data, listed) {
        Err(code) => {
            let refusal = Refusal::from(code);
            subsystem.refuse(ctrl, origin, entry.nsid, refusal);
            CommandResult {
                dword0: 0,
                status: refusal.status,
            }
        }
        Ok(command) => execute(subsystem, ctrl, mem, &command, origin, entry_data),
    }
}

/// Takes the next entry from a controller's submission queue. It executes the command or refuses
/// the entry, writes the data of the reply, and then posts the completion. What is recorded has the
/// phase tag of that completion. Returns the entry and its completion.
pub(crate) fn take_one<M: PagedMemory>(
    subsystem: &mut Subsystem,
    rings: &mut Rings,
    room: &mut EntryRoom,
    ctrl: u16,
    mem: &mut M,
) -> Exchange
    requires ctrl { ctrl < length subsystem.old.controllers }
    requires well_formed { IsWellFormed subsystem.old }
    requires can { can_take rings.old ≡ true }
    requires reached { reaches rings.old (M.page_len mem.old) (length (M.bytes mem.old)) ≡ true }
    ensures one { One ctrl (scene (untagged subsystem.old) rings.old (M.bytes mem.old))
        (scene (untagged subsystem.new) rings.new (M.bytes mem.new)) }
    ensures tagged { scene subsystem.new rings.new (M.bytes mem.new)
        ≡ next_scene ctrl (scene subsystem.old rings.old (M.bytes mem.old)) }
    ensures exchange { result
        ≡ exchange_in ctrl (scene (untagged subsystem.old) rings.old (M.bytes mem.old)) }
    ensures well_formed { IsWellFormed subsystem.new }
    ensures controllers { length subsystem.new.controllers ≡ length subsystem.old.controllers }
    ensures len { length (M.bytes mem.new) ≡ length (M.bytes mem.old) }
    ensures page { M.page_len mem.new ≡ M.page_len mem.old }
{
    let entry_address = rings.submission.address(mem);
    let completion_address = rings.completion.address(mem);
    let entry = rings.submission.next(mem).unwrap();
    let phase = rings.completion.phase();
    let command_result = answer_entry(subsystem, ctrl, mem, &entry, phase, room);
    let completion = Cqe {
        command_specific: command_result.dword0,
        sq_head: rings.submission.head(),
        sq_identifier: 0,
        cid: entry.cid,
        phase,
        status: command_result.status,
    };
    rings.completion.put(mem, completion).unwrap();
    Exchange {
        entry,
        entry_address,
        completion,
        completion_address,
    }
}
