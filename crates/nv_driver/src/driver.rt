//! The driver of the controllers of a bus.

ghost use Rattle.std.specs.Prelude.{◌≡◌, ◌<◌, ◌∷◌, [], ℕ, All, IfOk, IsOk, List, MatchResult, if◌then◌else◌, length};
ghost use Rattle.nv_bus.specs.Bus.{IsBus};
ghost use Rattle.nv_command.specs.Command.{CommandFits};
ghost use Rattle.nv_command.specs.Logs.{IsSendable};
ghost use Rattle.nv_command.specs.Received.{answer_received};
ghost use Rattle.nv_model.specs.Step.{reset, step};
ghost use Rattle.nv_bus.specs.Entry.{command_result_of};
ghost use Rattle.nv_layout.specs.Sqe.{SqeFits};
ghost use Rattle.nv_driver.specs.Alone.{IsReceived, asked_in, entry_step};
ghost use Rattle.nv_driver.specs.Batch.{answers_of, state_after};
ghost use Rattle.nv_driver.specs.BringingUp.{BringsUp, Restarts, Still};
ghost use Rattle.nv_driver.specs.Driver.{after_command, after_commands, after_reset, pair_at};
ghost use Rattle.nv_driver.specs.Driver.{HasEntryPages, driver_with, new_driver};
ghost use Rattle.nv_driver.specs.Layout.{pages_of_entry};
ghost use Rattle.nv_driver.specs.Linked.{IsBroughtUp, IsLinked};
ghost use Rattle.nv_driver.specs.Sending.{Passes, Sends};

use crate::answer_room::{Answer, AnswerRoom};
use crate::batch::exchange_all;
use crate::checked_geometry::CheckedGeometry;
use crate::command_pages::CommandPages;
use crate::enabling::{enable_all, reset};
use crate::error::DriverError;
use crate::geometry::Geometry;
use crate::host_side::{DataRoom, HostSide, MOST_OUTSTANDING};
use crate::passthrough::receive;
use crate::queue_pair::{QueuePair, new_pairs};
use crate::requests::Requests;
use crate::ringing::Ringing;
use crate::submitting::transfer_for;
use crate::zeroing::Zeroing;
use nv_bus::{Bus, CommandResult};
use nv_command::Command;
use nv_host::{FlatMemory, PageSet, PagedMemory};
use nv_layout::{Sqe, Status};
use nv_prp::Spans;
use std::alloc::Global;
use std::marker::Model;
use std::mem::swap;
use std::slice::{from_mut, from_ref};

/// The driver of all controllers of a bus: the host's memory, and in it the rings and pages of each
/// controller.
#[derive(Drop)]
pub struct Driver {
    host: Box<HostSide<FlatMemory>>,
    geometry: CheckedGeometry,
    pairs: Vec<QueuePair>,
    /// The pages behind those of all controllers.
    more_pages: PageSet,
}

impl Model for Driver {
    ghost use Rattle.nv_driver.specs.Settled.{DriverValue};

    ghost Value = { DriverValue };

    ghost use Rattle.nv_driver.specs.Driver.{IsDriver, driver_value};

    ghost view = { λ d. driver_value d.geometry d.host.value.mem d.pairs.items };

    ghost invariant = { λ d. IsDriver d.geometry d.host.value.mem d.pairs.items d.more_pages };
}

impl Driver {
    /// Allocates the host's memory, and makes each controller ready with rings in it. A controller
    /// that was enabled is reset. The error `Geometry` names the first field outside its limits;
    /// after it and after `Memory` the bus is untouched. A bus that keeps its contract never causes
    /// `NoReady`. Section "Controller Initialization and Shutdown Processing".
    pub fn bring_up<B: Bus + Zeroing>(
        alloc: Global,
        bus: &mut B,
        geometry: Geometry,
    ) -> Result<Driver, DriverError>
        requires { IsBus (B.meaning bus.old) }
        ensures brought { IsBroughtUp geometry
            (new_driver geometry (length (B.meaning bus.old).banks))
            (B.meaning bus.old) (B.meaning bus.new) result }
        ensures steps { MatchResult result
            (λ _. BringsUp B.was_written (Still B.was_read) B.was_zeroed geometry
            (length (B.meaning bus.old).banks) bus.old bus.new)
            (λ _. bus.new ≡ bus.old) }
    {
        Driver::lay_out(alloc, bus, geometry, false)
    }

    /// Brings up a driver as `bring_up` does, with room after the controllers' pages for the data
    /// of any entry, which `passthrough` needs.
    #[tactic(auto, using(crate::proofs::PassthroughLaws::has_pages))]
    pub fn bring_up_for_entries<B: Bus + Zeroing>(
        alloc: Global,
        bus: &mut B,
        geometry: Geometry,
    ) -> Result<Driver, DriverError>
        requires { IsBus (B.meaning bus.old) }
        ensures brought { IsBroughtUp geometry
            (driver_with geometry (length (B.meaning bus.old).banks)
            (pages_of_entry geometry.page_size)) (B.meaning bus.old) (B.meaning bus.new) result }
        ensures steps { MatchResult result
            (λ _. BringsUp B.was_written (Still B.was_read) B.was_zeroed geometry
            (length (B.meaning bus.old).banks) bus.old bus.new)
            (λ _. bus.new ≡ bus.old) }
        ensures entries { IfOk result HasEntryPages }
    {
        Driver::lay_out(alloc, bus, geometry, true)
    }

    /// Brings up a driver, with room for the data of any entry if this is wanted.
    fn lay_out<B: Bus + Zeroing>(
        alloc: Global,
        bus: &mut B,
        geometry: Geometry,
        with_entries: bool,
    ) -> Result<Driver, DriverError>
        requires { IsBus (B.meaning bus.old) }
        ensures brought { IsBroughtUp geometry
            (driver_with geometry (length (B.meaning bus.old).banks)
            (if with_entries then pages_of_entry geometry.page_size else 0))
            (B.meaning bus.old) (B.meaning bus.new) result }
        ensures steps { MatchResult result
            (λ _. BringsUp B.was_written (Still B.was_read) B.was_zeroed geometry
            (length (B.meaning bus.old).banks) bus.old bus.new)
            (λ _. bus.new ≡ bus.old) }
    {
        let geometry = CheckedGeometry::new(geometry).map_err(DriverError::Geometry)?;
        let controllers = bus.controllers();
        let first = geometry.pages(controllers);
        let more = geometry.more_pages(with_entries);
        let mem = FlatMemory::new(alloc, geometry.page_size, first + more)?;
        let side = HostSide {
            mem,
            data_room: DataRoom {
                spans: Spans::new(),
                data: [0; 16384],
            },
            taken: [CommandPages::NONE; MOST_OUTSTANDING],
            last: CommandResult {
                dword0: 0,
                status: Status::from_number(0),
            },
        };
        let Ok(mut host) = Box::new(alloc, side) else {
            return Err(DriverError::Memory);
        };
        let more_pages = PageSet::new(alloc, first, more)?;
        let pairs = new_pairs(alloc, geometry, controllers)?;
        enable_all(bus, &mut host.mem, &pairs, geometry)?;
        Ok(Driver {
            host,
            geometry,
            pairs,
            more_pages,
        })
    }

    /// Resets a controller: each value of its features becomes the saved one, or the default if
    /// none was saved, and its rings begin anew, while the command identifiers continue. It
    /// allocates no memory. The bus must be as this driver left it. The only error is `NoReady`,
    /// which a bus that keeps its contract never causes. Section "Controller Level Reset".
    pub fn reset<B: Bus + Zeroing>(&mut self, bus: &mut B, ctrl: u16) -> Result<(), DriverError>
        requires ctrl { ctrl < length self.old.pairs }
        requires linked { IsLinked (B.meaning bus.old) self.old }
        ensures ok { IsOk result }
        ensures state { (B.meaning bus.new).state ≡ reset (B.meaning bus.old).state ctrl }
        ensures driver { self.new ≡ after_reset self.old ctrl }
        ensures entries { HasEntryPages self.old → HasEntryPages self.new }
        ensures linked { IsLinked (B.meaning bus.new) self.new }
        ensures steps { (before : List ℕ) × (after : List ℕ) × Restarts B.was_written
            (Still B.was_read) B.was_zeroed self.old.geometry ctrl bus.old before bus.new after }
    {
        let pair = &mut self.pairs[ctrl as usize];
        reset(bus, ctrl, &mut self.host.mem, pair, self.geometry)
    }

    /// Sends a command to a controller and waits for its answer: the reply, or the status of the
    /// refusal. The answer is stored in the room, and no memory is allocated. The bus must be as
    /// this driver left it, each field of the command must fit its bits, and it must be possible to
    /// read its reply from its data. Section "Command Processing".
    pub fn admin<'a, B: Bus + Ringing>(
        &mut self,
        bus: &mut B,
        ctrl: u16,
        command: &Command,
        room: &'a mut AnswerRoom,
    ) -> Answer<'a>
        requires ctrl { ctrl < length self.old.pairs }
        requires linked { IsLinked (B.meaning bus.old) self.old }
        requires fits { CommandFits command.now }
        requires sends { IsSendable command.now }
        ensures answer { result ≡ answer_received command.now (step (B.meaning bus.old).state
            ctrl command.now (pair_at self.old.pairs ctrl).next_cid).answer }
        ensures state { (B.meaning bus.new).state ≡ (step (B.meaning bus.old).state
            ctrl command.now (pair_at self.old.pairs ctrl).next_cid).state }
        ensures driver { self.new ≡ after_command self.old ctrl }
        ensures linked { IsLinked (B.meaning bus.new) self.new }
        ensures steps { Sends B.was_written B.was_rung B.was_turned self.old ctrl (command.now ∷ [])
            (B.meaning bus.old) bus.old bus.new }
    {
        self.admin_all(bus, ctrl, from_ref(command), from_mut(room));
        room.answer()
    }

    /// Sends commands to a controller and waits for their answers, one for each. At a time as many
    /// commands are outstanding as the geometry's window allows, and a refusal doesn't stop the
    /// others. The answers and the subsystem are the same as if the commands were sent one at a
    /// time. No memory is allocated. The bus must be as this driver left it, each field of each
    /// command must fit its bits, and it must be possible to read its reply from its data. Section
    /// "Command Processing".
    pub fn admin_all<B: Bus + Ringing>(
        &mut self,
        bus: &mut B,
        ctrl: u16,
        commands: &[Command],
        answers: &mut [AnswerRoom],
    )
        requires ctrl { ctrl < length self.old.pairs }
        requires linked { IsLinked (B.meaning bus.old) self.old }
        requires fits { All CommandFits commands.now }
        requires sends { All IsSendable commands.now }
        requires len { length answers.old ≡ length commands.now }
        ensures answers { answers.new ≡ answers_of ctrl (B.meaning bus.old).state
            (pair_at self.old.pairs ctrl).next_cid commands.now }
        ensures state { (B.meaning bus.new).state ≡ state_after ctrl (B.meaning bus.old).state
            (pair_at self.old.pairs ctrl).next_cid commands.now }
        ensures driver { self.new ≡ after_commands self.old ctrl (length commands.now) }
        ensures linked { IsLinked (B.meaning bus.new) self.new }
        ensures steps { Sends B.was_written B.was_rung B.was_turned self.old ctrl commands.now
            (B.meaning bus.old) bus.old bus.new }
    {
        let pair = &mut self.pairs[ctrl as usize];
        let requests = Requests::Commands(commands);
        exchange_all(bus, ctrl, &mut self.host, pair, requests, answers);
    }

    /// Sends an entry to a controller, unchanged except for its command identifier and data
    /// pointer, with the host's data, and waits for its completion: dword 0 and the status. `out`
    /// receives as many of the controller's bytes as it has room for, and zeros after the last one;
    /// after a refusal there are none. As many of the host's bytes are sent as the entry's data
    /// has, with zeros after the last one that is given. The bus must be as this driver left it,
    /// and the driver must have been brought up for entries. No memory is allocated. Section
    /// "Command Processing".
    pub fn passthrough<B: Bus + Ringing>(
        &mut self,
        bus: &mut B,
        ctrl: u16,
        entry: &Sqe,
        bytes: &[u8],
        out: &mut [u8],
    ) -> CommandResult
        requires ctrl { ctrl < length self.old.pairs }
        requires linked { IsLinked (B.meaning bus.old) self.old }
        requires room { HasEntryPages self.old }
        requires fits { SqeFits entry.now }
        ensures answer { result ≡ command_result_of (entry_step (B.meaning bus.old).state ctrl
            entry.now bytes.now (pair_at self.old.pairs ctrl).next_cid).answer }
        ensures out { IsReceived (asked_in (B.meaning bus.old).state ctrl entry.now bytes.now)
            (entry_step (B.meaning bus.old).state ctrl
            entry.now bytes.now (pair_at self.old.pairs ctrl).next_cid).answer out.new }
        ensures room { length out.new ≡ length out.old }
        ensures state { (B.meaning bus.new).state ≡ (entry_step (B.meaning bus.old).state ctrl
            entry.now bytes.now (pair_at self.old.pairs ctrl).next_cid).state }
        ensures driver { self.new ≡ after_command self.old ctrl }
        ensures entries { HasEntryPages self.new }
        ensures linked { IsLinked (B.meaning bus.new) self.new }
        ensures steps { Passes B.was_written B.was_rung B.was_turned self.old ctrl entry.now bytes.now
            result.status out.new (B.meaning bus.old) bus.old bus.new }
    {
        let pair = &mut self.pairs[ctrl as usize];
        swap(&mut pair.pages, &mut self.more_pages);
        let requests = Requests::Entry { entry, bytes };
        let host = &mut *self.host;
        exchange_all(bus, ctrl, host, pair, requests, &mut []);
        swap(&mut pair.pages, &mut self.more_pages);
        let HostSide {
            mem,
            data_room,
            taken,
            last,
        } = host;
        let place = taken[0].place(self.geometry);
        let transfer = transfer_for(entry);
        let spans = &mut data_room.spans;
        receive(mem, &place.buffer, transfer, last.status, spans, out);
        *last
    }

    /// Returns how many controllers the driver has.
    #[tactic(auto, using(crate::proofs::AdminLaws::pair_count))]
    pub fn controllers(&self) -> usize
        ensures { result ≡ length self.now.pairs }
    {
        self.pairs.len()
    }

    /// Returns how many pages the host's memory has.
    pub fn pages(&self) -> u64
        ensures { result ≡ self.now.pages }
    {
        u64::from(self.host.mem.pages())
    }
}
