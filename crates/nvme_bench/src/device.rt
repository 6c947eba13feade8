//! The controllers of a subsystem with their driver.

ghost use Rattle.std.specs.Prelude.{◌<◌, All, IfOk, Some, length};
ghost use Rattle.nv_command.specs.Command.{CommandFits};
ghost use Rattle.nv_command.specs.Logs.{IsSendable};
ghost use Rattle.nv_layout.specs.Sqe.{SqeFits};
ghost use Rattle.nvme_bench.specs.Device.{IsDevice};

use crate::answer::{Answer, Answered};
use crate::arguments::OperationArguments;
use crate::error::OperationError;
use crate::replies::add_reply;
use crate::sending::{read_command, read_commands};
use crate::watched::Watched;
use nv_command::Command;
use nv_controller::{Bus, Machine};
use nv_driver::{AnswerRoom, Driver, Geometry};
use nv_host::FlatMemory;
use nv_layout::{CtrlList, ErrorEntry, Sqe};
use nv_subsystem::{CommandCounts, Subsystem};
use std::alloc::Global;
use std::marker::Model;

/// The controllers of a subsystem, and their driver if one was brought up and nothing has changed
/// the controllers directly since.
#[derive(Drop)]
pub(crate) struct DrivenDevice {
    bus: Watched,
    driver: Option<Driver>,
}

impl Model for DrivenDevice {
    ghost use Rattle.nvme_bench.specs.Device.{IsDevice};

    ghost Value = { Unit {0} };

    ghost view = { λ _. tt };

    ghost invariant = { λ d. IsDevice d.bus.machine d.driver };
}

/// Returns the entry that the arguments describe.
fn entry_in(given: &OperationArguments) -> Sqe
    ensures { SqeFits result }
{
    Sqe {
        opcode: given.byte("opcode"),
        nsid: given.dword("nsid"),
        cdw10: given.dword("cdw10"),
        cdw11: given.dword("cdw11"),
        cdw12: given.dword("cdw12"),
        cdw13: given.dword("cdw13"),
        cdw14: given.dword("cdw14"),
        cdw15: given.dword("cdw15"),
        ..Sqe::default()
    }
}

/// Sends an entry to a controller, and returns its completion and the bytes that came.
fn pass_through(
    bus: &mut Watched,
    driver: &mut Driver,
    ctrl: u16,
    given: &OperationArguments,
    answer: Answer,
) -> Answered
    requires ctrl { ctrl < length driver.old.pairs }
    requires device { IsDevice bus.old.machine (Some driver.old) }
    ensures { IsDevice bus.new.machine (Some driver.new) }
{
    let mut came = vec![in answer.alloc(); 0u8; given.qword("room") as usize]?;
    let data = given.bytes("data");
    let command_result = driver.passthrough(bus, ctrl, &entry_in(given), data, came.as_mut_slice());
    answer
        .number("status", u64::from(command_result.status.number()))?
        .number("dword0", u64::from(command_result.dword0))?
        .bytes("bytes", came.as_slice())
}

/// Sends a command to a controller, and returns its reply.
#[tactic(auto, using(nv_driver::proofs::PassthroughLaws::room_stays))]
fn send_command(
    bus: &mut Watched,
    driver: &mut Driver,
    ctrl: u16,
    command: &Command,
    answer: Answer,
) -> Answered
    requires ctrl { ctrl < length driver.old.pairs }
    requires device { IsDevice bus.old.machine (Some driver.old) }
    requires sends { IsSendable command.now }
    requires fits { CommandFits command.now }
    ensures { IsDevice bus.new.machine (Some driver.new) }
{
    let mut room = AnswerRoom::new();
    let reply = driver.admin(bus, ctrl, command, &mut room);
    add_reply(answer, &reply)
}

/// Sends commands to a controller, and returns their replies, each after its number.
#[tactic(auto, using(nv_driver::proofs::PassthroughLaws::room_stays))]
fn send_commands(
    bus: &mut Watched,
    driver: &mut Driver,
    ctrl: u16,
    commands: &[Command],
    mut answer: Answer,
) -> Answered
    requires ctrl { ctrl < length driver.old.pairs }
    requires device { IsDevice bus.old.machine (Some driver.old) }
    requires sends { All IsSendable commands.now }
    requires fits { All CommandFits commands.now }
    ensures { IsDevice bus.new.machine (Some driver.new) }
{
    let mut rooms = Vec::new(answer.alloc());
    rooms.resize_with(commands.len(), AnswerRoom::new)?;
    driver.admin_all(bus, ctrl, commands, rooms.as_mut_slice());
    for (index, room) in rooms.iter().enumerate() {
        answer = answer.number("command", index as u64)?;
        answer = add_reply(answer, &room.answer())?;
    }
    Ok(answer)
}

/// Returns room for the lists of the commands of 1 to 64 whole entries.
fn places_for(alloc: Global, entries: &[u8]) -> Result<Vec<CtrlList>, OperationError> {
    let len = entries.len();
    if len == 0 || len > 4096 || len % 64 != 0 {
        return Err(OperationError::Entries);
    }
    let mut places = Vec::new(alloc);
    places.resize_with(len / 64, CtrlList::new)?;
    Ok(places)
}

impl DrivenDevice {
    /// Powers on the controllers of a file's subsystem, without a driver.
    pub(crate) fn new(alloc: Global, file: &[u8]) -> Result<DrivenDevice, OperationError> {
        let machine = Machine::new(alloc, Subsystem::from_toml(alloc, file)?)?;
        Ok(DrivenDevice {
            bus: Watched::new(alloc, machine),
            driver: None,
        })
    }

    pub(crate) fn controllers(&self) -> u16 {
        self.bus.controllers()
    }

    /// Returns a register of a controller.
    pub(crate) fn read32(&self, ctrl: u16, offset: u32) -> Result<u32, OperationError> {
        if ctrl >= self.bus.controllers() {
            return Err(OperationError::NoController);
        }
        Ok(self.bus.read32(ctrl, offset))
    }

    /// Writes a register of a controller. This ends the driver.
    pub(crate) fn write32(
        &mut self,
        ctrl: u16,
        offset: u32,
        value: u32,
    ) -> Result<(), OperationError> {
        if ctrl >= self.bus.controllers() {
            return Err(OperationError::NoController);
        }
        self.driver = None;
        self.bus.forget();
        self.bus.write32(ctrl, offset, value);
        Ok(())
    }

    /// Lets a controller take at most `most` entries, and returns how many it took. This ends the
    /// driver.
    pub(crate) fn turn(
        &mut self,
        ctrl: u16,
        memory: &mut FlatMemory,
        most: u16,
    ) -> Result<u16, OperationError> {
        if ctrl >= self.bus.controllers() {
            return Err(OperationError::NoController);
        }
        self.driver = None;
        self.bus.forget();
        Ok(self.bus.turn(ctrl, memory, most))
    }

    /// Returns how many commands a controller refused, and how many it took.
    #[tactic(auto, using(crate::proofs::DeviceLaws::controller_within))]
    pub(crate) fn counts(&self, ctrl: u16) -> Result<CommandCounts, OperationError> {
        if ctrl >= self.bus.controllers() {
            return Err(OperationError::NoController);
        }
        Ok(self.bus.machine().subsystem().counts(ctrl))
    }

    /// Returns an entry of a controller's error log, the newest one first.
    #[tactic(auto, using(crate::proofs::DeviceLaws::controller_within))]
    pub(crate) fn log_entry(&self, ctrl: u16, index: u16) -> Result<ErrorEntry, OperationError> {
        if ctrl >= self.bus.controllers() {
            return Err(OperationError::NoController);
        }
        self.bus
            .machine()
            .subsystem()
            .log_entry(ctrl, usize::from(index))
            .ok_or(OperationError::NoEntry)
    }

    /// Brings up a driver with pages for the data of any entry, and returns how many pages its
    /// memory has.
    pub(crate) fn bring_up(
        &mut self,
        alloc: Global,
        geometry: Geometry,
    ) -> Result<u64, OperationError> {
        geometry.check()?;
        self.driver = None;
        self.bus.forget();
        let driver = Driver::bring_up_for_entries(alloc, &mut self.bus, geometry)?;
        let pages = driver.pages();
        self.driver = Some(driver);
        Ok(pages)
    }

    /// Sends an entry to a controller, and returns its completion and the bytes that came.
    pub(crate) fn passthrough(&mut self, given: &OperationArguments, answer: Answer) -> Answered {
        let ctrl = given.word("ctrl");
        let Some(driver) = &mut self.driver else {
            return Err(OperationError::NoDriver);
        };
        if usize::from(ctrl) >= driver.controllers() {
            return Err(OperationError::NoController);
        }
        pass_through(&mut self.bus, driver, ctrl, given, answer)
    }

    /// Sends the command of an entry to a controller, and returns its reply.
    pub(crate) fn admin(&mut self, given: &OperationArguments, answer: Answer) -> Answered {
        let ctrl = given.word("ctrl");
        let Some(driver) = &mut self.driver else {
            return Err(OperationError::NoDriver);
        };
        if usize::from(ctrl) >= driver.controllers() {
            return Err(OperationError::NoController);
        }
        let mut place = CtrlList::new();
        let command = read_command(given.bytes("entry"), given.bytes("sent"), &mut place)?;
        send_command(&mut self.bus, driver, ctrl, &command, answer)
    }

    /// Sends the commands of several entries to a controller, and returns their replies.
    pub(crate) fn admin_all(&mut self, given: &OperationArguments, answer: Answer) -> Answered {
        let ctrl = given.word("ctrl");
        let Some(driver) = &mut self.driver else {
            return Err(OperationError::NoDriver);
        };
        if usize::from(ctrl) >= driver.controllers() {
            return Err(OperationError::NoController);
        }
        let alloc = answer.alloc();
        let entries = given.bytes("entries");
        let mut places = places_for(alloc, entries)?;
        let commands = read_commands(alloc, entries, given.bytes("sent"), places.as_mut_slice())?;
        send_commands(&mut self.bus, driver, ctrl, commands.as_slice(), answer)
    }

    /// Resets a controller.
    pub(crate) fn reset(&mut self, ctrl: u16) -> Result<(), OperationError> {
        let Some(driver) = &mut self.driver else {
            return Err(OperationError::NoDriver);
        };
        if usize::from(ctrl) >= driver.controllers() {
            return Err(OperationError::NoController);
        }
        Ok(driver.reset(&mut self.bus, ctrl)?)
    }

    /// Answers what the bus saw of the driver, and forgets it.
    pub(crate) fn saw(&mut self, answer: Answer) -> Answered {
        if self.driver.is_none() {
            return Err(OperationError::NoDriver);
        }
        self.bus.tell(answer)
    }
}
