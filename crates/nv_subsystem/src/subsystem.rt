//! A subsystem, and what its commands do.

ghost use Rattle.std.specs.Prelude.{◌≡◌, ◌<◌, ◌≤◌, ◌^◌, length, None, IfOk, IfErr, false};
ghost use Rattle.nv_command.specs.Reply.{dword0_of};
ghost use Rattle.std.specs.Str.{is_utf8};
ghost use Rattle.nv_model.specs.Answer.{answer_to};
ghost use Rattle.nv_model.specs.LogEntry.{counts_of, log_entry_of};
ghost use Rattle.nv_layout.specs.UnlessMemory.{IsUnlessMemory};
ghost use Rattle.nv_file.specs.File.{IsBlankText, no_version};
ghost use Rattle.nv_file.specs.FileValue.{file_view};
ghost use Rattle.nv_subsystem.specs.Answer.{dword0_in};
ghost use Rattle.nv_subsystem.specs.FromFile.{state_of, subsystem};
ghost use Rattle.nv_subsystem.specs.Tagged.{booked, settled, untagged};
ghost use Rattle.nv_file.specs.IsFile.{IsFile};
ghost use Rattle.nv_model.specs.Meaning.{effect_of, refusal_of, reply_of};
ghost use Rattle.nv_model.specs.Fits.{RepliesFit};
ghost use Rattle.nv_model.specs.Conditions.{greatest_limit, limit_of, mdts_of, is_valid};
ghost use Rattle.nv_model.specs.Step.{refused, step, with_command};
ghost use Rattle.nv_model.specs.WellFormed.{IsWellFormed};
ghost use Rattle.nv_command.specs.Refusal.{IsRefusal};

use crate::controller::Controller;
use crate::from_file::{controllers, slots, unallocated};
use crate::record_room::RecordRoom;
use nv_bits::VecMap;
use nv_command::{Command, Refusal};
use nv_file::{File, SubsystemError};
use nv_layout::{ErrorEntry, NsList};
use nv_model::{CommandCounts, Format, Namespace, Origin};
use std::alloc::Global;
use std::marker::Model;

/// An NVM subsystem.
#[derive(Drop)]
pub struct Subsystem {
    pub(crate) tnvmcap: u64,
    /// The unallocated capacity in bytes.
    pub(crate) unallocated: u64,
    pub(crate) mc: u8,
    pub(crate) subnqn: String,
    pub(crate) formats: Vec<Format>,
    pub(crate) controllers: Vec<Controller>,
    /// The namespaces by NSID, from 1 to NN.
    pub(crate) slots: VecMap<Namespace>,
}

impl Model for Subsystem {
    ghost use Rattle.std.specs.Prelude.{◌≡◌, ◌+◌, map, string_bytes};
    ghost use Rattle.std.specs.Coded.{codes};
    ghost use Rattle.std.specs.FinMap as map_of;
    ghost use Rattle.nv_model.specs.State.{State};

    ghost Value = { State };

    ghost coded = { Prim.hlevel (codes, map_of.code) };

    ghost use Rattle.nv_model.specs.WellFormed.{used};
    ghost use Rattle.nv_subsystem.specs.inner.ControllerView.{controller_view};
    ghost use Rattle.nv_subsystem.specs.Sound.{IsSound};

    ghost view = { λ s. record {
      nn = s.slots.count;
      tnvmcap = s.tnvmcap;
      mc = s.mc;
      subnqn = string_bytes s.subnqn;
      formats = s.formats.items;
      controllers = map controller_view s.controllers.items;
      namespaces = s.slots.values;
    } };

    ghost invariant = { λ s.
        IsSound s.slots s.formats.items s.controllers.items
        × (s.unallocated + used s.slots.values ≡ s.tnvmcap) };
}

impl Subsystem {
    /// Creates the subsystem of a file.
    fn from_file(alloc: Global, file: File) -> Result<Subsystem, SubsystemError>
        requires { IsFile (file_view file) }
        ensures state { IfOk result (λ s. s ≡ state_of (file_view file)) }
        ensures memory { IfErr result (λ e. e ≡ SubsystemError.Memory) }
    {
        let unallocated = unallocated(file.tnvmcap, &file.namespaces);
        let slots = slots(alloc, file.nn, &file.namespaces)?;
        let controllers = controllers(alloc, file.nn, file.controllers, &file.namespaces)?;
        Ok(Subsystem {
            tnvmcap: file.tnvmcap,
            unallocated,
            mc: file.mc,
            subnqn: file.subnqn,
            formats: file.formats,
            controllers,
            slots,
        })
    }

    /// Reads a subsystem file: the subsystem that its tables give, or its first fault, unless
    /// memory runs out. Faults that are found before anything is allocated are returned regardless of
    /// memory, as `File::from_toml` does.
    #[tactic(auto, unfolding(crate::specs::FromFile::subsystem))]
    pub fn from_toml(alloc: Global, bytes: &[u8]) -> Result<Subsystem, SubsystemError>
        ensures exact { IsUnlessMemory SubsystemError.Memory (λ s. s) result (subsystem bytes.now) }
        ensures text { is_utf8 bytes.now ≡ false → result ≡ Err SubsystemError.NotToml }
        ensures blank { IsBlankText bytes.now → result ≡ Err no_version }
        ensures well_formed { IfOk result IsWellFormed }
    {
        let file = File::from_toml(alloc, bytes)?;
        let subsystem = Subsystem::from_file(alloc, file)?;
        Ok(subsystem)
    }

    /// Returns the number of controllers.
    pub fn controllers(&self) -> u16
        ensures { result ≡ length self.now.controllers }
    {
        self.controllers.len() as u16
    }

    /// Returns how many commands a controller refused, and how many it took.
    pub fn counts(&self, ctrl: u16) -> CommandCounts
        requires { ctrl < length self.now.controllers }
        ensures { result ≡ counts_of self.now ctrl }
    {
        let controller = &self.controllers[ctrl as usize];
        CommandCounts {
            refusals: controller.refusals,
            commands: controller.commands,
        }
    }

    /// Returns the MDTS of a controller: the greatest number of 4,096-byte pages that a command
    /// transfers, as a power of two. Section "Identify Controller data structure (CNS 01h)",
    /// Maximum Data Transfer Size.
    pub fn mdts(&self, ctrl: u16) -> u8
        requires { ctrl < length self.now.controllers }
        ensures value { result ≡ mdts_of self.now ctrl }
        ensures most { result ≤ 8 }
    {
        self.controllers[ctrl as usize].identity.numbers.mdts
    }

    /// Returns the greatest length of the data of a controller's command, in bytes. Section
    /// "Identify Controller data structure (CNS 01h)", Maximum Data Transfer Size.
    #[tactic(auto, using(nv_model::proofs::LimitLaws::limit_within))]
    pub fn limit(&self, ctrl: u16) -> u64
        requires { ctrl < length self.now.controllers }
        ensures limit { result ≡ limit_of self.now ctrl }
        ensures most { result ≤ greatest_limit }
    {
        4096 * (1 << self.mdts(ctrl))
    }

    /// Returns the entry of a controller's error log at an index, counted from the newest, with the
    /// phase tag that its completion had. Section "Error Information (Log Identifier 01h)".
    pub fn log_entry(&self, ctrl: u16, index: usize) -> Option<ErrorEntry>
        requires { ctrl < length self.now.controllers }
        ensures { result ≡ log_entry_of self.now ctrl index }
    {
        self.controllers[ctrl as usize].log.get(index)
    }

    /// Returns whether the subsystem could have a namespace of this NSID.
    pub(crate) fn is_valid(&self, nsid: u32) -> bool
        ensures { result ≡ is_valid self.now nsid }
    {
        1 <= nsid && nsid <= self.slots.count()
    }

    /// Makes the changes of a command that isn't refused. `number` is dword 0 of its reply, and
    /// `list` is used on the way.
    fn apply(&mut self, ctrl: u16, command: &Command, number: u32, list: &mut NsList)
        requires ctrl { ctrl < length self.old.controllers }
        requires accepted { refusal_of self.old ctrl command.now ≡ None }
        requires number { number ≡ dword0_of (reply_of self.old ctrl command.now) }
        ensures { self.new ≡ effect_of self.old ctrl command.now }
    {
        match command {
            Command::IdentifyController => {}
            Command::IdentifyNamespace { nsid: _ } => {}
            Command::AllocatedNamespace { nsid: _ } => {}
            Command::ActiveList { after: _ } => {}
            Command::AllocatedList { after: _ } => {}
            Command::Create(wanted) => self.create(wanted, number),
            Command::Delete { nsid } => self.delete(*nsid),
            Command::Attachment { nsid, detach, list } => {
                self.change_attachment(*nsid, *detach, list.as_slice());
            }
            Command::Format(asked) => self.format(ctrl, asked, list),
            Command::GetFeature(_) => {}
            Command::SetFeature(asked) => self.set_feature(ctrl, *asked, list),
            Command::GetLog(_) => {}
        }
    }

    /// Counts a command of a controller.
    fn count(&mut self, ctrl: u16)
        requires { ctrl < length self.old.controllers }
        ensures { self.new ≡ with_command self.old ctrl }
    {
        let controller = &mut self.controllers[ctrl as usize];
        controller.commands = controller.commands.saturating_add(1);
    }

    /// Records a refusal in the error log of a controller.
    fn book(&mut self, ctrl: u16, origin: Origin, nsid: u32, refusal: Refusal)
        requires { ctrl < length self.old.controllers }
        ensures state { self.new ≡ booked self.old ctrl nsid origin refusal }
        ensures range { origin.cid < 2 ^ 16 }
        ensures controllers { length self.new.controllers ≡ length self.old.controllers }
    {
        let controller = &mut self.controllers[ctrl as usize];
        controller.book(origin, nsid, refusal);
    }

    /// Records a refusal in the error log of a controller, as its newest entry with the phase tag
    /// of its completion, and counts the command. Nothing else changes.
    pub fn refuse(&mut self, ctrl: u16, origin: Origin, nsid: u32, refusal: Refusal)
        requires { ctrl < length self.old.controllers }
        ensures state { self.new ≡ with_command (booked self.old ctrl nsid origin refusal) ctrl }
        ensures without_tags { untagged self.new
            ≡ with_command (refused (untagged self.old) ctrl nsid origin.cid refusal) ctrl }
        ensures well_formed { IsWellFormed self.old → IsRefusal refusal → IsWellFormed self.new }
    {
        self.book(ctrl, origin, nsid, refusal);
        self.count(ctrl);
    }

    /// Completes a command that was answered: makes its changes, or records its refusal in the
    /// error log of the controller. The controller counts the command in both cases. `answer` is what
    /// `answer` returned, with dword 0 in place of the reply. `room` is used on the way.
    pub fn settle(
        &mut self,
        ctrl: u16,
        command: &Command,
        origin: Origin,
        answer: Result<u32, Refusal>,
        room: &mut RecordRoom,
    )
        requires ctrl { ctrl < length self.old.controllers }
        requires answered { answer ≡ dword0_in (answer_to self.old ctrl command.now) }
        ensures state { self.new
            ≡ settled self.old ctrl command.now origin (refusal_of self.old ctrl command.now) }
        ensures without_tags { untagged self.new
            ≡ (step (untagged self.old) ctrl command.now origin.cid).state }
        ensures well_formed { IsWellFormed self.old → IsWellFormed self.new }
    {
        match answer {
            Ok(number) => {
                self.apply(ctrl, command, number, &mut room.list);
                self.count(ctrl);
            }
            Err(refusal) => self.refuse(ctrl, origin, command.nsid(), refusal),
        }
    }
}

/// States a law: each reply belongs to its command and fits its record. The call does nothing.
pub fn replies_fit()
    ensures { RepliesFit }
{}
