//! The controllers of a subsystem.

ghost use Rattle.std.specs.Prelude.{◌≡◌, ◌<◌, IfNone, IfOk, IfSome, MatchBool, OnSome, if◌then◌else◌, length};
ghost use Rattle.std.specs.Prelude.{replicate, slice_set};
ghost use Rattle.nv_register.specs.RegisterBank.{new_bank, stops_at, with_register_at};
ghost use Rattle.nv_model.specs.Step.{reset};
ghost use Rattle.nv_model.specs.WellFormed.{IsWellFormed};
ghost use Rattle.nv_bus.specs.Bus.{IsBus, bank_at, state_written};
ghost use Rattle.nv_bus.specs.Entry.{scene};
ghost use Rattle.nv_bus.specs.Shown.{AreShown};
ghost use Rattle.nv_bus.specs.Turn.{BankTurn, RingsTurn, TakesCount, Turn, site};
ghost use Rattle.nv_subsystem.specs.Tagged.{untagged};
ghost use Rattle.nv_controller.specs.Caller.{answered, can_post, completed, entry_of, rings_completed};
ghost use Rattle.nv_controller.specs.Caller.{rings_fetched, rings_posted, with_rings_of};
ghost use Rattle.nv_controller.specs.Machine.{bus_of, machine_written};
ghost use Rattle.nv_controller.specs.Exchanges.{exchanges, exchanges_by, turn_exchanges};
ghost use Rattle.nv_controller.specs.Tags.{TaggedBy, TaggedTurn, scenes_after};

use crate::caller;
use crate::entry::take_one;
use crate::entry_room::EntryRoom;
use nv_bus::{Bus, CommandResult, Observer, Unobserved};
use nv_host::{Memory, PagedMemory};
use nv_layout::Sqe;
use nv_register::{Readiness, RegisterBank, Rings};
use nv_subsystem::Subsystem;
use std::alloc::Global;
use std::marker::Model;

/// A bus over a subsystem, with the registers and rings of each of its controllers.
#[derive(Drop)]
pub struct Machine {
    subsystem: Subsystem,
    banks: Vec<RegisterBank>,
    room: EntryRoom,
}

impl Model for Machine {
    ghost use Rattle.std.specs.Coded.{codes};
    ghost use Rattle.std.specs.FinMap as map_of;
    ghost use Rattle.nv_controller.specs.Machine.{MachineValue};

    ghost Value = { MachineValue };

    ghost coded = { Prim.hlevel (codes, map_of.code) };

    ghost view = { λ m. record { state = m.subsystem; banks = m.banks.items } };

    ghost use Rattle.std.specs.Prelude.{◌≡◌, length};

    ghost invariant = { λ m. length m.banks.items ≡ length m.subsystem.controllers };
}

/// Returns the registers of `count` controllers after power on.
#[tactic(auto, using(std::proofs::lemmas::List::replicate_more))]
fn new_banks(alloc: Global, count: u16) -> Result<Vec<RegisterBank>, Memory>
    ensures { IfOk result (λ banks. banks.items ≡ replicate count new_bank) }
{
    let mut banks = Vec::new(alloc);
    for _ in 0..count {
        if banks.push(RegisterBank::new()).is_err() {
            return Err(Memory);
        }
    }
    Ok(banks)
}

/// Writes a register of a controller. A write that clears an EN that was 1 resets the controller.
/// Section "Controller Level Reset".
#[tactic(auto, using(crate::proofs::BusLaws::resets))]
fn write_bank(
    subsystem: &mut Subsystem,
    bank: &mut RegisterBank,
    ctrl: u16,
    offset: u32,
    dword: u32,
)
    requires { ctrl < length subsystem.old.controllers }
    ensures state { subsystem.new
        ≡ (if stops_at bank.old offset dword then reset subsystem.old ctrl else subsystem.old) }
    ensures bank { bank.new ≡ with_register_at bank.old offset dword }
    ensures controllers { length subsystem.new.controllers ≡ length subsystem.old.controllers }
    ensures well_formed { IsWellFormed subsystem.old → IsWellFormed subsystem.new }
{
    if bank.stops_at(offset, dword) {
        subsystem.reset(ctrl);
    }
    bank.write32(offset, dword);
}

/// A turn of a controller, in which it takes at most `most` entries.
#[derive(Clone, Copy)]
struct GivenTurn {
    ctrl: u16,
    most: u16,
}

/// Takes entries, as long as one is waiting and there is a free slot for its completion, and shows
/// each to the observer. Returns how many it took, and whether it stopped because the memory has
/// another page size than that with which the controller was enabled, or doesn't hold a slot that
/// it needs.
fn take_entries<M: PagedMemory, O: Observer>(
    subsystem: &mut Subsystem,
    rings: &mut Rings,
    room: &mut EntryRoom,
    given: GivenTurn,
    mem: &mut M,
    observer: &mut O,
) -> (u16, bool)
    requires ctrl { given.ctrl < length subsystem.old.controllers }
    requires well_formed { IsWellFormed subsystem.old }
    ensures turn { RingsTurn (M.page_len mem.old) given.ctrl given.most result.0
        (scene (untagged subsystem.old) rings.old (M.bytes mem.old))
        (scene (untagged subsystem.new) rings.new (M.bytes mem.new)) result.1 }
    ensures tagged { scene subsystem.new rings.new (M.bytes mem.new)
        ≡ scenes_after result.0 given.ctrl (scene subsystem.old rings.old (M.bytes mem.old)) }
    ensures shown { AreShown O.was_shown given.ctrl (exchanges result.0 given.ctrl
        (scene subsystem.old rings.old (M.bytes mem.old))) observer.old observer.new }
    ensures well_formed { IsWellFormed subsystem.new }
    ensures controllers { length subsystem.new.controllers ≡ length subsystem.old.controllers }
    ensures len { length (M.bytes mem.new) ≡ length (M.bytes mem.old) }
    ensures page { M.page_len mem.new ≡ M.page_len mem.old }
{
    for count in 0..given.most {
        if rings.submission.is_empty() || rings.completion.is_full() {
            return (count, false);
        }
        if mem.page_size() != rings.page_size
            || !rings.submission.fits(mem)
            || !rings.completion.fits(mem)
        {
            return (count, true);
        }
        let exchange = take_one(subsystem, rings, room, given.ctrl, mem);
        observer.show(given.ctrl, &exchange);
    }
    (given.most, false)
}

/// Performs a turn of one controller, over its registers and rings.
fn turn_bank<M: PagedMemory, O: Observer>(
    subsystem: &mut Subsystem,
    bank: &mut RegisterBank,
    room: &mut EntryRoom,
    given: GivenTurn,
    mem: &mut M,
    observer: &mut O,
) -> u16
    requires ctrl { given.ctrl < length subsystem.old.controllers }
    requires well_formed { IsWellFormed subsystem.old }
    ensures turn { BankTurn (M.page_len mem.old) given.ctrl given.most result
        (site (untagged subsystem.old) bank.old (M.bytes mem.old))
        (site (untagged subsystem.new) bank.new (M.bytes mem.new)) }
    ensures tagged { TaggedBy bank.old.readiness given.ctrl result
        (site subsystem.old bank.old (M.bytes mem.old))
        (site subsystem.new bank.new (M.bytes mem.new)) }
    ensures shown { AreShown O.was_shown given.ctrl (exchanges_by bank.old.readiness result given.ctrl
        subsystem.old (M.bytes mem.old)) observer.old observer.new }
    ensures count { TakesCount (M.page_len mem.old) (length (M.bytes mem.old)) given.most
        bank.old result bank.new }
    ensures well_formed { IsWellFormed subsystem.new }
    ensures controllers { length subsystem.new.controllers ≡ length subsystem.old.controllers }
    ensures len { length (M.bytes mem.new) ≡ length (M.bytes mem.old) }
    ensures page { M.page_len mem.new ≡ M.page_len mem.old }
{
    match &mut bank.readiness {
        Readiness::Ready { rings, fatal } if !*fatal => {
            let (count, stopped) = take_entries(subsystem, rings, room, given, mem, observer);
            *fatal = stopped;
            count
        }
        _ => 0,
    }
}

impl Machine {
    /// Creates the controllers of a subsystem, as they are after power on. If memory is refused,
    /// the subsystem is dropped.
    pub fn new(alloc: Global, subsystem: Subsystem) -> Result<Machine, Memory>
        ensures value { IfOk result (λ m. m ≡ record {
          state = subsystem;
          banks = replicate (length subsystem.controllers) new_bank;
        }) }
        ensures bus { IfOk result (λ m. IsWellFormed subsystem → IsBus (bus_of m)) }
    {
        let banks = new_banks(alloc, subsystem.controllers())?;
        Ok(Machine {
            subsystem,
            banks,
            room: EntryRoom::new(),
        })
    }

    /// Returns the subsystem as it is now. Its logs have phase tags.
    pub fn subsystem(&self) -> &Subsystem
        ensures { result.now ≡ self.now.state }
    {
        &self.subsystem
    }

    /// Returns the entry that a turn of the controller over this memory would take next, or none if it
    /// would take none. Nothing changes.
    pub fn next_entry<M: PagedMemory>(&self, ctrl: u16, mem: &M) -> Option<Sqe>
        requires { ctrl < length self.now.banks }
        ensures { result ≡ entry_of self.now ctrl (M.page_len mem.now) (M.bytes mem.now) }
    {
        caller::next_of(&self.banks[ctrl as usize], mem)
    }

    /// Takes that entry in place of the controller, which knows nothing of it. The caller owes it a
    /// completion, by `post`.
    pub fn fetch<M: PagedMemory>(&mut self, ctrl: u16, mem: &M) -> Option<Sqe>
        requires { ctrl < length self.old.banks }
        ensures entry { result ≡ entry_of self.old ctrl (M.page_len mem.now) (M.bytes mem.now) }
        ensures taken { OnSome result (self.new ≡ with_rings_of ctrl rings_fetched self.old) }
        ensures none { IfNone result (self.new ≡ self.old) }
        ensures bus { IsBus (bus_of self.old) → IsBus (bus_of self.new) }
    {
        caller::fetch(&mut self.banks[ctrl as usize], mem)
    }

    /// Takes that entry in place of the controller, and posts its completion, with the head of the
    /// submission queue past it and the phase tag that is due.
    pub fn complete<M: PagedMemory>(
        &mut self,
        ctrl: u16,
        mem: &mut M,
        command_result: CommandResult,
    ) -> Option<Sqe>
        requires { ctrl < length self.old.banks }
        ensures entry { result ≡ entry_of self.old ctrl (M.page_len mem.old) (M.bytes mem.old) }
        ensures machine { OnSome result (self.new ≡ with_rings_of ctrl rings_completed self.old) }
        ensures bytes { IfSome result
            (λ e. M.bytes mem.new ≡ completed self.old ctrl command_result (M.bytes mem.old) e) }
        ensures none { IfNone result (self.new ≡ self.old) }
        ensures none_bytes { IfNone result (M.bytes mem.new ≡ M.bytes mem.old) }
        ensures bus { IsBus (bus_of self.old) → IsBus (bus_of self.new) }
        ensures len { length (M.bytes mem.new) ≡ length (M.bytes mem.old) }
        ensures page { M.page_len mem.new ≡ M.page_len mem.old }
    {
        caller::complete_next(&mut self.banks[ctrl as usize], mem, command_result)
    }

    /// Posts the completion of an entry that the caller took, with the head of the submission queue
    /// and the phase tag that is due. Returns whether the completion queue had a free slot in the
    /// memory. If it hadn't, nothing changes.
    pub fn post<M: PagedMemory>(
        &mut self,
        ctrl: u16,
        mem: &mut M,
        cid: u16,
        command_result: CommandResult,
    ) -> bool
        requires { ctrl < length self.old.banks }
        ensures can { result
            ≡ can_post self.old ctrl (M.page_len mem.old) (length (M.bytes mem.old)) }
        ensures machine { MatchBool result (self.new ≡ with_rings_of ctrl rings_posted self.old)
            (self.new ≡ self.old) }
        ensures bytes { MatchBool result
            (M.bytes mem.new ≡ answered self.old ctrl cid command_result (M.bytes mem.old))
            (M.bytes mem.new ≡ M.bytes mem.old) }
        ensures bus { IsBus (bus_of self.old) → IsBus (bus_of self.new) }
        ensures len { length (M.bytes mem.new) ≡ length (M.bytes mem.old) }
        ensures page { M.page_len mem.new ≡ M.page_len mem.old }
    {
        caller::post(&mut self.banks[ctrl as usize], mem, cid, command_result)
    }

    /// Does what `turn` does, and shows the observer each entry that was taken, in order. An
    /// observer can't change what the turn does.
    pub fn turn_with<M: PagedMemory, O: Observer>(
        &mut self,
        ctrl: u16,
        mem: &mut M,
        most: u16,
        observer: &mut O,
    ) -> u16
        requires ctrl { ctrl < length self.old.banks }
        requires bus { IsBus (bus_of self.old) }
        ensures turn { Turn (M.page_len mem.old) ctrl most result
            (bus_of self.old) (M.bytes mem.old) (bus_of self.new) (M.bytes mem.new) }
        ensures count { TakesCount (M.page_len mem.old) (length (M.bytes mem.old)) most
            (bank_at self.old.banks ctrl) result (bank_at self.new.banks ctrl) }
        ensures bus { IsBus (bus_of self.new) }
        ensures len { length (M.bytes mem.new) ≡ length (M.bytes mem.old) }
        ensures page { M.page_len mem.new ≡ M.page_len mem.old }
        ensures tags { TaggedTurn ctrl result
            self.old (M.bytes mem.old) self.new (M.bytes mem.new) }
        ensures shown { AreShown O.was_shown ctrl
            (turn_exchanges result ctrl self.old (M.bytes mem.old)) observer.old observer.new }
    {
        let bank = &mut self.banks[ctrl as usize];
        let given = GivenTurn { ctrl, most };
        turn_bank(
            &mut self.subsystem,
            bank,
            &mut self.room,
            given,
            mem,
            observer,
        )
    }
}

impl Bus for Machine {
    ghost use Rattle.nv_controller.specs.Machine.{Writes, bus_of};
    ghost use Rattle.nv_controller.specs.Tags.{Turns};

    // A bus doesn't show the phase tags in logs. What is said of its writes and turns does.
    ghost meaning = { λ m. bus_of m };

    ghost was_written = { Writes };

    ghost was_turned = { Turns };

    fn controllers(&self) -> u16 {
        self.subsystem.controllers()
    }

    fn read32(&self, ctrl: u16, offset: u32) -> u32 {
        self.banks[ctrl as usize].read32(offset)
    }

    fn write32(&mut self, ctrl: u16, offset: u32, dword: u32)
        requires { ctrl < length self.old.banks }
        ensures state { (bus_of self.new).state ≡ state_written (bus_of self.old) ctrl offset dword }
        ensures banks { self.new.banks ≡ slice_set self.old.banks ctrl
            (with_register_at (bank_at self.old.banks ctrl) offset dword) }
        ensures bus { IsBus (bus_of self.old) → IsBus (bus_of self.new) }
        ensures tags { self.new.state ≡ machine_written self.old ctrl offset dword }
    {
        let bank = &mut self.banks[ctrl as usize];
        write_bank(&mut self.subsystem, bank, ctrl, offset, dword);
    }

    fn turn<M: PagedMemory>(&mut self, ctrl: u16, mem: &mut M, most: u16) -> u16
        requires ctrl { ctrl < length self.old.banks }
        requires bus { IsBus (bus_of self.old) }
        ensures turn { Turn (M.page_len mem.old) ctrl most result
            (bus_of self.old) (M.bytes mem.old) (bus_of self.new) (M.bytes mem.new) }
        ensures count { TakesCount (M.page_len mem.old) (length (M.bytes mem.old)) most
            (bank_at self.old.banks ctrl) result (bank_at self.new.banks ctrl) }
        ensures bus { IsBus (bus_of self.new) }
        ensures len { length (M.bytes mem.new) ≡ length (M.bytes mem.old) }
        ensures page { M.page_len mem.new ≡ M.page_len mem.old }
        ensures tags { TaggedTurn ctrl result
            self.old (M.bytes mem.old) self.new (M.bytes mem.new) }
    {
        self.turn_with(ctrl, mem, most, &mut Unobserved)
    }
}
