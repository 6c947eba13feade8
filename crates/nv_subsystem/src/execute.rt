//! What a command is answered, and commands that a program without a bus has a subsystem execute.

ghost use Rattle.std.specs.Prelude.{◌≡◌, ◌<◌, length};
ghost use Rattle.nv_command.specs.Reply.{dword0_of};
ghost use Rattle.nv_model.specs.Answer.{answer_to, answer_without_phases};
ghost use Rattle.nv_model.specs.Meaning.{refusal_of};
ghost use Rattle.nv_model.specs.Step.{step};
ghost use Rattle.nv_model.specs.WellFormed.{IsWellFormed};
ghost use Rattle.nv_subsystem.specs.Tagged.{settled, untagged};

use crate::identify::check_list;
use crate::nsid_lists::list_above;
use crate::record_room::RecordRoom;
use crate::subsystem::Subsystem;
use nv_command::{Command, LogPage, Refusal, Reply, ReplyRoom};
use nv_model::Origin;

/// Returns dword 0 of the completion with a reply.
pub fn dword0(reply: &Reply) -> u32
    ensures { result ≡ dword0_of reply.now }
{
    match reply {
        Reply::Number(number) => *number,
        _ => 0,
    }
}

impl Subsystem {
    /// Answers a command of a controller: returns its reply, or the first refusal. `room` receives
    /// what the reply borrows.
    pub fn answer<'a>(
        &'a self,
        ctrl: u16,
        command: &Command,
        room: &'a mut RecordRoom,
    ) -> Result<Reply<'a>, Refusal>
        requires { ctrl < length self.now.controllers }
        ensures { result ≡ answer_to self.now ctrl command.now }
    {
        match command {
            Command::IdentifyController => Ok(self.controller_reply(ctrl, room)),
            Command::IdentifyNamespace { nsid } => {
                self.check_active(*nsid)?;
                Ok(self.active_reply(ctrl, *nsid, room))
            }
            Command::AllocatedNamespace { nsid } => {
                self.check_allocated(*nsid)?;
                Ok(self.allocated_reply(*nsid, room))
            }
            Command::ActiveList { after } => {
                check_list(*after)?;
                self.list_active(ctrl, *after, &mut room.list);
                Ok(Reply::List(room.list.ids()))
            }
            Command::AllocatedList { after } => {
                check_list(*after)?;
                list_above(&self.slots, *after, &mut room.list);
                Ok(Reply::List(room.list.ids()))
            }
            Command::Create(wanted) => Ok(Reply::Number(self.check_create(wanted)?)),
            Command::Delete { nsid } => {
                self.check_delete(*nsid)?;
                Ok(Reply::Done)
            }
            Command::Attachment { nsid, detach, list } => {
                self.check_attachment(*nsid, *detach, list.as_slice())?;
                Ok(Reply::Done)
            }
            Command::Format(asked) => {
                self.check_format(ctrl, asked, &mut room.list)?;
                Ok(Reply::Done)
            }
            Command::GetFeature(asked) => {
                self.check_get_feature(ctrl, *asked)?;
                Ok(Reply::Number(self.feature_number(ctrl, *asked)))
            }
            Command::SetFeature(asked) => {
                self.check_set_feature(ctrl, *asked)?;
                Ok(Reply::Done)
            }
            Command::GetLog(asked) => {
                self.check_log(ctrl, *asked)?;
                Ok(self.log_reply(ctrl, LogPage::asked(asked.lid), room))
            }
        }
    }

    /// Executes a command of a controller, and stores its reply in `room`. After a refusal the
    /// contents of `room` don't matter. A refusal is recorded in the controller's error log, and
    /// the controller counts the command in both cases.
    pub fn execute<'a>(
        &mut self,
        ctrl: u16,
        command: &Command,
        origin: Origin,
        room: &'a mut ReplyRoom,
    ) -> Result<Reply<'a>, Refusal>
        requires { ctrl < length self.old.controllers }
        ensures answer { result ≡ answer_to self.old ctrl command.now }
        ensures state { self.new
            ≡ settled self.old ctrl command.now origin (refusal_of self.old ctrl command.now) }
        ensures answer_without_tags { answer_without_phases result
            ≡ answer_to (untagged self.old) ctrl command.now }
        ensures without_tags { untagged self.new
            ≡ (step (untagged self.old) ctrl command.now origin.cid).state }
        ensures well_formed { IsWellFormed self.old → IsWellFormed self.new }
    {
        let mut records = RecordRoom::new();
        match self.answer(ctrl, command, &mut records) {
            Ok(reply) => {
                room.keep(&reply);
                let number = dword0(&reply);
                self.settle(ctrl, command, origin, Ok(number), &mut records);
                Ok(room.reply())
            }
            Err(refusal) => {
                self.settle(ctrl, command, origin, Err(refusal), &mut records);
                Err(refusal)
            }
        }
    }
}
