//! Entries of a controller's admin queue that a program in C answers in its place.

ghost use Rattle.std.specs.Prelude.{◌≡◌, ◌<◌, IfSome, IsTrue, length};
ghost use Rattle.nv_bus.specs.Bus.{IsBus};
ghost use Rattle.nv_controller.specs.Caller.{can_post, entry_of};
ghost use Rattle.nv_controller.specs.Machine.{bus_of};
ghost use Rattle.nv_host.specs.Pages.{are_pages};
ghost use Rattle.nvme_controller.specs.Caller.{bytes_after, bytes_posted, done_number};
ghost use Rattle.nvme_controller.specs.Caller.{found_number, machine_after};
ghost use Rattle.nvme_controller.specs.Caller.{machine_posted, next_over, posts_over, shown_bytes};
ghost use Rattle.nvme_controller.specs.Caller.{command_result_of};
ghost use Rattle.nvme_controller.specs.Open.{Goes, IsOpen};

use crate::handle::Handle;
use crate::lent::Lent;
use nv_bus::CommandResult;
use nv_controller::{Bus, Machine};
use nv_host::{LentBytes, LentMemory, Loan, PagedMemory, are_pages};
use nv_layout::{Sqe, Status};
use std::alloc::Global;
use std::marker::Brand;

/// What a program does with the next entry of a controller's admin queue, in its place.
#[derive(Clone, Copy)]
enum Handling {
    /// It looks at the entry.
    Look,
    /// It takes the entry, and owes it a completion.
    Take,
    /// It takes the entry, and posts its completion.
    Complete(CommandResult),
}

/// What a completion says, as a program in C passes it.
#[repr(C)]
#[derive(Clone, Copy)]
pub struct Answer {
    pub dword0: u32,
    /// The command identifier, if the completion is that of an entry that was taken before.
    pub cid: u16,
    /// The status field, without the phase tag.
    pub status: u16,
}

impl Answer {
    /// Returns what the completion says of the command.
    pub(crate) fn command_result(&self) -> CommandResult
        ensures { result ≡ command_result_of self.now }
    {
        CommandResult {
            dword0: self.dword0,
            status: Status::from_number(self.status),
        }
    }
}

/// Does this with the next entry, if there is one, and returns it.
fn act_on<M: PagedMemory>(
    machine: &mut Machine,
    ctrl: u16,
    mem: &mut M,
    handling: Handling,
) -> Option<Sqe>
    requires bus { IsBus (bus_of machine.old) }
    requires ctrl { ctrl < length machine.old.banks }
    ensures entry { result ≡ entry_of machine.old ctrl (M.page_len mem.old) (M.bytes mem.old) }
    ensures machine { machine.new ≡ machine_after result handling ctrl machine.old }
    ensures bytes { M.bytes mem.new
        ≡ bytes_after result handling ctrl machine.old (M.bytes mem.old) }
    ensures bus { IsBus (bus_of machine.new) }
    ensures len { length (M.bytes mem.new) ≡ length (M.bytes mem.old) }
{
    match handling {
        Handling::Look => machine.next_entry(ctrl, mem),
        Handling::Take => machine.fetch(ctrl, mem),
        Handling::Complete(command_result) => machine.complete(ctrl, mem, command_result),
    }
}

/// Does this with the next entry that the controller would take over these bytes, if there is one,
/// and returns it with the bytes. There is none if there is no such controller, or the bytes aren't
/// whole pages.
fn act<'a, L: Loan>(
    machine: &mut Machine,
    ctrl: u16,
    memory: &'a mut [u8],
    page_size: u32,
    handling: Handling,
) -> Lent<'a, Option<Sqe>>
    requires bus { IsBus (bus_of machine.old) }
    requires loan { memory.ghost_name ≡ L.reference }
    ensures same_reference { result.memory.ghost_name ≡ memory.entry.ghost_name }
    ensures entry { result.value ≡ next_over machine.old ctrl page_size memory.old }
    ensures machine { machine.new ≡ machine_after result.value handling ctrl machine.old }
    ensures bytes { result.memory.now
        ≡ bytes_after result.value handling ctrl machine.old memory.old }
    ensures bus { IsBus (bus_of machine.new) }
{
    if ctrl >= machine.controllers() || !are_pages(page_size, memory.len()) {
        return Lent {
            value: None,
            memory,
        };
    }
    let mut lent: LentMemory<'a, L> = LentMemory::new(memory, page_size);
    let value = act_on(machine, ctrl, &mut lent, handling);
    let LentBytes { bytes: memory } = lent.into_bytes();
    Lent { value, memory }
}

/// Copies an entry if there is one, and returns 1, or else 0.
pub(crate) fn show(found: Option<Sqe>, entry: &mut [u8; 64]) -> i32
    ensures found { result ≡ found_number found }
    ensures bytes { entry.new ≡ shown_bytes found entry.old }
{
    match found {
        Some(shown) => {
            shown.put(entry);
            1
        }
        None => 0,
    }
}

/// Copies the entry that a turn of the controller over these bytes would take next, and returns 1,
/// or 0 if it would take none.
#[unsafe(no_mangle)]
pub extern "C" fn nvme_handle_next(
    alloc: Global,
    handle: &mut Handle,
    ctrl: u16,
    memory: &mut [u8],
    page_size: u32,
    entry: &mut [u8; 64],
) -> i32
    requires open { IsOpen handle.old.machine }
    ensures found { IfSome handle.old.machine
        (λ m. result ≡ found_number (next_over m ctrl page_size memory.old)) }
    ensures entry { IfSome handle.old.machine
        (λ m. entry.new ≡ shown_bytes (next_over m ctrl page_size memory.old) entry.old) }
    ensures stays { handle.new.machine ≡ handle.old.machine }
    ensures memory { memory.new ≡ memory.old }
{
    let mut machine = handle.take(alloc);
    let found = act::<Brand>(&mut machine, ctrl, memory, page_size, Handling::Look).value;
    handle.put(machine);
    show(found, entry)
}

/// Takes that entry in place of the controller, without a completion, and copies it. Returns 1, or
/// 0 if there is none.
#[unsafe(no_mangle)]
pub extern "C" fn nvme_handle_fetch(
    alloc: Global,
    handle: &mut Handle,
    ctrl: u16,
    memory: &mut [u8],
    page_size: u32,
    entry: &mut [u8; 64],
) -> i32
    requires open { IsOpen handle.old.machine }
    ensures found { IfSome handle.old.machine
        (λ m. result ≡ found_number (next_over m ctrl page_size memory.old)) }
    ensures entry { IfSome handle.old.machine
        (λ m. entry.new ≡ shown_bytes (next_over m ctrl page_size memory.old) entry.old) }
    ensures taken { Goes handle.old.machine handle.new.machine
        (λ m m'. m' ≡ machine_after (next_over m ctrl page_size memory.old) Handling.Take ctrl m) }
    ensures memory { memory.new ≡ memory.old }
    ensures open { IsOpen handle.new.machine }
{
    let mut machine = handle.take(alloc);
    let found = act::<Brand>(&mut machine, ctrl, memory, page_size, Handling::Take).value;
    handle.put(machine);
    show(found, entry)
}

/// Takes that entry in place of the controller, and posts its completion. Returns 1, or 0 if there
/// is none.
#[unsafe(no_mangle)]
pub extern "C" fn nvme_handle_complete(
    alloc: Global,
    handle: &mut Handle,
    ctrl: u16,
    memory: &mut [u8],
    page_size: u32,
    answer: &Answer,
) -> i32
    requires open { IsOpen handle.old.machine }
    ensures found { IfSome handle.old.machine
        (λ m. result ≡ found_number (next_over m ctrl page_size memory.old)) }
    ensures taken { Goes handle.old.machine handle.new.machine
        (λ m m'. m' ≡ machine_after (next_over m ctrl page_size memory.old)
        (Handling.Complete (command_result_of answer.now)) ctrl m) }
    ensures memory { IfSome handle.old.machine
        (λ m. memory.new ≡ bytes_after (next_over m ctrl page_size memory.old)
        (Handling.Complete (command_result_of answer.now)) ctrl m memory.old) }
    ensures open { IsOpen handle.new.machine }
{
    let mut machine = handle.take(alloc);
    let handling = Handling::Complete(answer.command_result());
    let found = act::<Brand>(&mut machine, ctrl, memory, page_size, handling).value;
    handle.put(machine);
    show(found, &mut [0; 64])
}

/// Posts the completion of an entry that was taken before over these bytes, which it returns with
/// whether it was posted: if the controller exists, the bytes are whole pages, and the completion
/// queue has a free slot in them.
fn post<'a, L: Loan>(
    machine: &mut Machine,
    ctrl: u16,
    memory: &'a mut [u8],
    page_size: u32,
    answer: &Answer,
) -> Lent<'a, bool>
    requires bus { IsBus (bus_of machine.old) }
    requires loan { memory.ghost_name ≡ L.reference }
    ensures same_reference { result.memory.ghost_name ≡ memory.entry.ghost_name }
    ensures posted { result.value ≡ posts_over machine.old ctrl page_size (length memory.old) }
    ensures machine { machine.new ≡ machine_posted result.value ctrl machine.old }
    ensures bytes { result.memory.now ≡ bytes_posted result.value ctrl machine.old
        answer.now.cid (command_result_of answer.now) memory.old }
    ensures bus { IsBus (bus_of machine.new) }
{
    if ctrl >= machine.controllers() || !are_pages(page_size, memory.len()) {
        return Lent {
            value: false,
            memory,
        };
    }
    let mut lent: LentMemory<'a, L> = LentMemory::new(memory, page_size);
    let value = machine.post(ctrl, &mut lent, answer.cid, answer.command_result());
    let LentBytes { bytes: memory } = lent.into_bytes();
    Lent { value, memory }
}

/// Posts the completion of an entry that was taken before. Returns 1, or 0 if that isn't possible.
#[unsafe(no_mangle)]
pub extern "C" fn nvme_handle_post(
    alloc: Global,
    handle: &mut Handle,
    ctrl: u16,
    memory: &mut [u8],
    page_size: u32,
    answer: &Answer,
) -> i32
    requires open { IsOpen handle.old.machine }
    ensures posted { IfSome handle.old.machine
        (λ m. result ≡ done_number (posts_over m ctrl page_size (length memory.old))) }
    ensures machine { Goes handle.old.machine handle.new.machine
        (λ m m'. m' ≡ machine_posted (posts_over m ctrl page_size (length memory.old)) ctrl m) }
    ensures memory { IfSome handle.old.machine
        (λ m. memory.new ≡ bytes_posted (posts_over m ctrl page_size (length memory.old)) ctrl m
        answer.now.cid (command_result_of answer.now) memory.old) }
    ensures open { IsOpen handle.new.machine }
{
    let mut machine = handle.take(alloc);
    let is_posted = post::<Brand>(&mut machine, ctrl, memory, page_size, answer).value;
    handle.put(machine);
    i32::from(is_posted)
}
