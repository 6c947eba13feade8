//! Entries of a controller's admin queue that the caller answers in its place.

ghost use Rattle.std.specs.Prelude.{◌≡◌, IfNone, IfSome, MatchBool, OnSome, length};
ghost use Rattle.nv_queue.specs.Numbers.{slot_of};
ghost use Rattle.nv_bus.specs.Entry.{completion_of};
ghost use Rattle.nv_controller.specs.Caller.{answered_by, can_post_by, completed_by, entry_by};
ghost use Rattle.nv_controller.specs.Caller.{rings_answered, rings_can_post, rings_completed, rings_entry};
ghost use Rattle.nv_controller.specs.Caller.{rings_fetched, rings_posted, with_rings_changed};

use crate::pair::{can_take, complete, next_entry, take_entry};
use nv_bus::CommandResult;
use nv_host::PagedMemory;
use nv_layout::{Cqe, Sqe};
use nv_register::{Readiness, RegisterBank, Rings};

/// Returns the entry that is taken next from these rings.
fn next_in<M: PagedMemory>(rings: &Rings, mem: &M) -> Option<Sqe>
    ensures { result ≡ rings_entry rings.now (M.page_len mem.now) (M.bytes mem.now) }
{
    if mem.page_size() == rings.page_size {
        next_entry(&rings.submission, &rings.completion, mem)
    } else {
        None
    }
}

/// Takes that entry.
fn fetch_from<M: PagedMemory>(rings: &mut Rings, mem: &M) -> Option<Sqe>
    ensures entry { result ≡ rings_entry rings.old (M.page_len mem.now) (M.bytes mem.now) }
    ensures taken { OnSome result (rings.new ≡ rings_fetched rings.old) }
    ensures none { IfNone result (rings.new ≡ rings.old) }
{
    if mem.page_size() == rings.page_size {
        take_entry(&mut rings.submission, &rings.completion, mem)
    } else {
        None
    }
}

/// Returns the completion of an entry that was taken, whose phase tag is that which is due.
fn completion(rings: &Rings, cid: u16, command_result: CommandResult) -> Cqe
    ensures { let submission = rings.now.submission in
        result ≡ completion_of cid (slot_of submission.depth submission.fetched) command_result }
{
    Cqe {
        command_specific: command_result.dword0,
        sq_head: rings.submission.head(),
        sq_identifier: 0,
        cid,
        phase: false,
        status: command_result.status,
    }
}

/// Takes the next entry and posts its completion.
fn complete_from<M: PagedMemory>(
    rings: &mut Rings,
    mem: &mut M,
    command_result: CommandResult,
) -> Option<Sqe>
    ensures entry { result ≡ rings_entry rings.old (M.page_len mem.old) (M.bytes mem.old) }
    ensures rings { OnSome result (rings.new ≡ rings_completed rings.old) }
    ensures bytes { IfSome result (λ e. M.bytes mem.new
        ≡ rings_answered (rings_fetched rings.old) e.cid command_result (M.bytes mem.old)) }
    ensures none { IfNone result (rings.new ≡ rings.old) }
    ensures none_bytes { IfNone result (M.bytes mem.new ≡ M.bytes mem.old) }
    ensures len { length (M.bytes mem.new) ≡ length (M.bytes mem.old) }
    ensures page { M.page_len mem.new ≡ M.page_len mem.old }
{
    if mem.page_size() != rings.page_size || !can_take(&rings.submission, &rings.completion, mem) {
        return None;
    }
    let entry = rings.submission.next(mem).unwrap();
    let completion = completion(rings, entry.cid, command_result);
    rings.completion.put(mem, completion).unwrap();
    Some(entry)
}

/// Posts a completion, and returns whether that was possible.
fn post_to<M: PagedMemory>(
    rings: &mut Rings,
    mem: &mut M,
    cid: u16,
    command_result: CommandResult,
) -> bool
    ensures can { result ≡ rings_can_post rings.old (M.page_len mem.old) (length (M.bytes mem.old)) }
    ensures rings { MatchBool result (rings.new ≡ rings_posted rings.old) (rings.new ≡ rings.old) }
    ensures bytes { MatchBool result
        (M.bytes mem.new ≡ rings_answered rings.old cid command_result (M.bytes mem.old))
        (M.bytes mem.new ≡ M.bytes mem.old) }
    ensures len { length (M.bytes mem.new) ≡ length (M.bytes mem.old) }
    ensures page { M.page_len mem.new ≡ M.page_len mem.old }
{
    let completion = completion(rings, cid, command_result);
    mem.page_size() == rings.page_size && complete(&mut rings.completion, mem, completion)
}

/// Returns the entry that a controller takes next. Nothing changes.
pub(crate) fn next_of<M: PagedMemory>(bank: &RegisterBank, mem: &M) -> Option<Sqe>
    ensures { result ≡ entry_by bank.now.readiness (M.page_len mem.now) (M.bytes mem.now) }
{
    match &bank.readiness {
        Readiness::Ready { rings, fatal } if !*fatal => next_in(rings, mem),
        _ => None,
    }
}

/// Takes that entry in place of the controller.
pub(crate) fn fetch<M: PagedMemory>(bank: &mut RegisterBank, mem: &M) -> Option<Sqe>
    ensures entry { result
        ≡ entry_by bank.old.readiness (M.page_len mem.now) (M.bytes mem.now) }
    ensures taken { OnSome result (bank.new ≡ with_rings_changed rings_fetched bank.old) }
    ensures none { IfNone result (bank.new ≡ bank.old) }
{
    match &mut bank.readiness {
        Readiness::Ready { rings, fatal } if !*fatal => fetch_from(rings, mem),
        _ => None,
    }
}

/// Takes the next entry in place of the controller, and posts its completion.
pub(crate) fn complete_next<M: PagedMemory>(
    bank: &mut RegisterBank,
    mem: &mut M,
    command_result: CommandResult,
) -> Option<Sqe>
    ensures entry { result
        ≡ entry_by bank.old.readiness (M.page_len mem.old) (M.bytes mem.old) }
    ensures bank { OnSome result (bank.new ≡ with_rings_changed rings_completed bank.old) }
    ensures bytes { IfSome result (λ e. M.bytes mem.new
        ≡ completed_by bank.old.readiness command_result (M.bytes mem.old) e) }
    ensures none { IfNone result (bank.new ≡ bank.old) }
    ensures none_bytes { IfNone result (M.bytes mem.new ≡ M.bytes mem.old) }
    ensures len { length (M.bytes mem.new) ≡ length (M.bytes mem.old) }
    ensures page { M.page_len mem.new ≡ M.page_len mem.old }
{
    match &mut bank.readiness {
        Readiness::Ready { rings, fatal } if !*fatal => complete_from(rings, mem, command_result),
        _ => None,
    }
}

/// Posts a completion in place of the controller, and returns whether that was possible.
pub(crate) fn post<M: PagedMemory>(
    bank: &mut RegisterBank,
    mem: &mut M,
    cid: u16,
    command_result: CommandResult,
) -> bool
    ensures can { result
        ≡ can_post_by bank.old.readiness (M.page_len mem.old) (length (M.bytes mem.old)) }
    ensures bank { MatchBool result (bank.new ≡ with_rings_changed rings_posted bank.old)
        (bank.new ≡ bank.old) }
    ensures bytes { MatchBool result
        (M.bytes mem.new ≡ answered_by bank.old.readiness cid command_result (M.bytes mem.old))
        (M.bytes mem.new ≡ M.bytes mem.old) }
    ensures len { length (M.bytes mem.new) ≡ length (M.bytes mem.old) }
    ensures page { M.page_len mem.new ≡ M.page_len mem.old }
{
    match &mut bank.readiness {
        Readiness::Ready { rings, fatal } if !*fatal => post_to(rings, mem, cid, command_result),
        _ => false,
    }
}
