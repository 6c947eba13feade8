//! The calls of a program in C. Each takes the machine out of its handle, and puts it back.
ghost use Rattle.std.specs.Prelude.{◌≡◌, ◌<◌, IfErr, IfOk, IfSome, IsTrue, None, Option, Some};
ghost use Rattle.std.specs.Prelude.{ℕ, [], List, false, length, pos};
ghost use Rattle.std.specs.Str.{is_utf8};
ghost use Rattle.nv_bus.specs.Bus.{IsBus};
ghost use Rattle.nv_controller.specs.Machine.{MachineValue, bus_of};
ghost use Rattle.nv_file.specs.Demo.{demo_text};
ghost use Rattle.nv_file.specs.File.{IsBlankText, no_version};
ghost use Rattle.nv_host.specs.Pages.{are_pages};
ghost use Rattle.nv_model.specs.LogEntry.{counts_of, log_entry_of};
ghost use Rattle.nv_subsystem.specs.FromFile.{subsystem};
ghost use Rattle.nvme_controller.specs.Calls.{BytesTurn, EntryTold, Opens, Turned, Written};
ghost use Rattle.nvme_controller.specs.Calls.{read_of};
ghost use Rattle.nvme_controller.specs.FaultText.{Tells, TellsFault, c_text};
ghost use Rattle.nvme_controller.specs.inner.FaultText.{IsFaultOf};
ghost use Rattle.nvme_controller.specs.Open.{Goes, IsOpen};

use crate::fault::{number, put_fault, put_texts};
use crate::handle::Handle;
use crate::lent::Lent;
use nv_controller::{Bus, Machine};
use nv_host::{LentBytes, LentMemory, Loan, are_pages};
use nv_subsystem::{CommandCounts, DEMO, Subsystem, SubsystemError};
use std::alloc::Global;
use std::marker::Brand;

/// The value of every dword of a controller that doesn't exist.
const ABSENT: u32 = 0xffff_ffff;

/// Creates the machine of a subsystem file, or returns the file's first fault.
#[tactic(auto, using(crate::proofs::OpenLaws::opens))]
fn machine_of(alloc: Global, file: &[u8]) -> Result<Box<Machine>, SubsystemError>
    ensures bus { IfOk result (λ b. IsBus (bus_of b.value)) }
    ensures value { IfOk result
        (λ b. (m : Option MachineValue) → Opens (subsystem file.now) (pos 0) m (Some b.value)) }
    ensures text { IfOk result (λ _. (bytes : List ℕ) → bytes ≡ c_text (length bytes) []
        → Tells (subsystem file.now) (pos 0) bytes) }
    ensures fault { IfErr result (λ e. IsFaultOf (subsystem file.now) e) }
    ensures no_text { is_utf8 file.now ≡ false → result ≡ Err SubsystemError.NotToml }
    ensures blank { IsBlankText file.now → result ≡ Err no_version }
{
    let subsystem = Subsystem::from_toml(alloc, file)?;
    let Ok(machine) = Machine::new(alloc, subsystem) else {
        return Err(SubsystemError::Memory);
    };
    let place = Box::new(alloc, machine)?;
    Ok(place)
}

/// Opens the machine of a subsystem file in a closed handle. Returns 0, or the number of the file's
/// first fault, whose text is written to `fault`.
#[tactic(auto, using(crate::proofs::OpenLaws::faults))]
#[unsafe(no_mangle)]
pub extern "C" fn nvme_handle_open(
    alloc: Global,
    file: &[u8],
    handle: &mut Handle,
    fault: &mut [u8],
) -> i32
    requires closed { handle.old.machine ≡ None }
    ensures opens { Opens (subsystem file.now) result handle.old.machine handle.new.machine }
    ensures open { result ≡ pos 0 → IsOpen handle.new.machine }
    ensures fault { Tells (subsystem file.now) result fault.new }
    ensures text { is_utf8 file.now ≡ false
        → TellsFault SubsystemError.NotToml result fault.new }
    ensures blank { IsBlankText file.now → TellsFault no_version result fault.new }
{
    match machine_of(alloc, file) {
        Ok(machine) => {
            put_texts(&[], fault);
            handle.put(machine);
            0
        }
        Err(error) => {
            put_fault(error, fault);
            number(error)
        }
    }
}

/// Opens the machine of the demonstration subsystem in a closed handle. Returns 0, or the number of
/// the fault, which is too little memory.
#[unsafe(no_mangle)]
pub extern "C" fn nvme_handle_demo(alloc: Global, handle: &mut Handle) -> i32
    requires closed { handle.old.machine ≡ None }
    ensures opens { Opens (subsystem demo_text) result handle.old.machine handle.new.machine }
    ensures open { result ≡ pos 0 → IsOpen handle.new.machine }
{
    nvme_handle_open(alloc, DEMO.as_bytes(), handle, &mut [])
}

/// Closes the handle and drops its machine.
#[unsafe(no_mangle)]
pub extern "C" fn nvme_handle_close(alloc: Global, handle: &mut Handle)
    requires open { IsOpen handle.old.machine }
    ensures { handle.new.machine ≡ None }
{
    drop(handle.take(alloc));
}

/// Returns the number of controllers.
#[unsafe(no_mangle)]
pub extern "C" fn nvme_handle_controllers(alloc: Global, handle: &mut Handle) -> u16
    requires open { IsOpen handle.old.machine }
    ensures value { IfSome handle.old.machine (λ m. result ≡ length m.banks) }
    ensures stays { handle.new.machine ≡ handle.old.machine }
{
    let machine = handle.take(alloc);
    let count = machine.controllers();
    handle.put(machine);
    count
}

/// Reads the dword at an offset of a controller's registers, or all ones if there is no such
/// controller.
fn read(machine: &Machine, ctrl: u16, offset: u32) -> u32
    ensures { result ≡ read_of machine.now ctrl offset }
{
    if ctrl < machine.controllers() {
        machine.read32(ctrl, offset)
    } else {
        ABSENT
    }
}

/// Reads the dword at an offset, in bytes, of a controller's registers.
#[unsafe(no_mangle)]
pub extern "C" fn nvme_handle_read32(
    alloc: Global,
    handle: &mut Handle,
    ctrl: u16,
    offset: u32,
) -> u32
    requires open { IsOpen handle.old.machine }
    ensures value { IfSome handle.old.machine (λ m. result ≡ read_of m ctrl offset) }
    ensures stays { handle.new.machine ≡ handle.old.machine }
{
    let machine = handle.take(alloc);
    let value = read(&machine, ctrl, offset);
    handle.put(machine);
    value
}

/// Writes the dword at an offset of a controller's registers, if there is such a controller.
fn write(machine: &mut Machine, ctrl: u16, offset: u32, value: u32)
    requires { IsBus (bus_of machine.old) }
    ensures written { Written ctrl offset value machine.old machine.new }
    ensures bus { IsBus (bus_of machine.new) }
{
    if ctrl < machine.controllers() {
        machine.write32(ctrl, offset, value);
    }
}

/// Writes the dword at an offset, in bytes, of a controller's registers.
#[unsafe(no_mangle)]
pub extern "C" fn nvme_handle_write32(
    alloc: Global,
    handle: &mut Handle,
    ctrl: u16,
    offset: u32,
    value: u32,
)
    requires open { IsOpen handle.old.machine }
    ensures written { Goes handle.old.machine handle.new.machine (Written ctrl offset value) }
    ensures open { IsOpen handle.new.machine }
{
    let mut machine = handle.take(alloc);
    write(&mut machine, ctrl, offset, value);
    handle.put(machine);
}

/// Gives a controller a turn over these bytes, which it returns with how many entries it took.
/// Nothing changes if there is no such controller, or the bytes aren't whole pages.
fn turn<'a, L: Loan>(
    machine: &mut Machine,
    ctrl: u16,
    memory: &'a mut [u8],
    page_size: u32,
    most: u16,
) -> Lent<'a, u16>
    requires bus { IsBus (bus_of machine.old) }
    requires loan { memory.ghost_name ≡ L.reference }
    ensures same_reference { result.memory.ghost_name ≡ memory.entry.ghost_name }
    ensures turned { Turned ctrl page_size most result.value
        machine.old memory.old machine.new result.memory.now }
    ensures bus { IsBus (bus_of machine.new) }
{
    if ctrl >= machine.controllers() || !are_pages(page_size, memory.len()) {
        return Lent { value: 0, memory };
    }
    let mut lent: LentMemory<'a, L> = LentMemory::new(memory, page_size);
    let value = machine.turn(ctrl, &mut lent, most);
    let LentBytes { bytes: memory } = lent.into_bytes();
    Lent { value, memory }
}

/// Gives a controller a turn of at most `most` entries over the host's memory, and returns how many
/// it took.
#[unsafe(no_mangle)]
pub extern "C" fn nvme_handle_turn(
    alloc: Global,
    handle: &mut Handle,
    ctrl: u16,
    memory: &mut [u8],
    page_size: u32,
    most: u16,
) -> u16
    requires open { IsOpen handle.old.machine }
    ensures turned { Goes handle.old.machine handle.new.machine
        (λ m m'. Turned ctrl page_size most result m memory.old m' memory.new) }
    ensures open { IsOpen handle.new.machine }
{
    let mut machine = handle.take(alloc);
    let count = turn::<Brand>(&mut machine, ctrl, memory, page_size, most).value;
    handle.put(machine);
    count
}

/// Returns how many commands a controller has refused, and how many it has taken: 0 and 0 if there
/// is no such controller.
#[tactic(auto, using(crate::proofs::CountLaws::counted))]
fn counts(machine: &Machine, ctrl: u16) -> CommandCounts
    requires { IsBus (bus_of machine.now) }
    ensures { result ≡ counts_of machine.now.state ctrl }
{
    if ctrl < machine.controllers() {
        machine.subsystem().counts(ctrl)
    } else {
        CommandCounts {
            refusals: 0,
            commands: 0,
        }
    }
}

/// Writes how many commands a controller has refused, and how many it has taken.
#[unsafe(no_mangle)]
pub extern "C" fn nvme_handle_counts(
    alloc: Global,
    handle: &mut Handle,
    ctrl: u16,
    refusals: &mut u64,
    commands: &mut u64,
)
    requires open { IsOpen handle.old.machine }
    ensures refusals { IfSome handle.old.machine
        (λ m. refusals.new ≡ (counts_of m.state ctrl).refusals) }
    ensures commands { IfSome handle.old.machine
        (λ m. commands.new ≡ (counts_of m.state ctrl).commands) }
    ensures stays { handle.new.machine ≡ handle.old.machine }
{
    let machine = handle.take(alloc);
    let counts = counts(&machine, ctrl);
    *refusals = counts.refusals;
    *commands = counts.commands;
    handle.put(machine);
}

/// Writes the entry at an index of a controller's error log, of which 0 is the newest. Returns 1,
/// or 0 if there is no such entry.
#[tactic(auto, using(crate::proofs::LogLaws::entries))]
fn put_entry(machine: &Machine, ctrl: u16, index: usize, entry: &mut [u8; 64]) -> i32
    requires { IsBus (bus_of machine.now) }
    ensures { EntryTold (log_entry_of machine.now.state ctrl index) result entry.old entry.new }
{
    if ctrl >= machine.controllers() {
        return 0;
    }
    match machine.subsystem().log_entry(ctrl, index) {
        Some(found) => {
            found.put(entry);
            1
        }
        None => 0,
    }
}

/// Writes the entry at an index of a controller's error log, of which 0 is the newest. Returns 1,
/// or 0 if there is no such entry.
#[unsafe(no_mangle)]
pub extern "C" fn nvme_handle_log_entry(
    alloc: Global,
    handle: &mut Handle,
    ctrl: u16,
    index: usize,
    entry: &mut [u8; 64],
) -> i32
    requires open { IsOpen handle.old.machine }
    ensures entry { IfSome handle.old.machine
        (λ m. EntryTold (log_entry_of m.state ctrl index) result entry.old entry.new) }
    ensures stays { handle.new.machine ≡ handle.old.machine }
{
    let machine = handle.take(alloc);
    let found = put_entry(&machine, ctrl, index, entry);
    handle.put(machine);
    found
}
