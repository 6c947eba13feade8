//! Room for the answer to a command, and how the answer is read.

ghost use Rattle.std.specs.Prelude.{◌≡◌, ◌≤◌, Ok, length};
ghost use Rattle.nv_command.specs.Command.{transfer_by};
ghost use Rattle.nv_command.specs.Logs.{IsSendable};
ghost use Rattle.nv_command.specs.declared.reply.Reply.TheVariants.{Done};
ghost use Rattle.nv_bus.specs.Call.{length_of};
ghost use Rattle.nv_prp.specs.Buffer.{IsBuffer, buffer_places};
ghost use Rattle.nv_prp.specs.Place.{read_at};
ghost use Rattle.nv_driver.specs.Layout.{most_bytes};
ghost use Rattle.nv_driver.specs.Schedule.{answer_from, received_from};

use crate::host_side::DataRoom;
use crate::submitting::DataPlace;
use nv_command::{Command, Reply, ReplyRoom, Transfer};
use nv_host::HostMemory;
use nv_layout::{Cqe, Status};
use nv_prp::{Buffer, Spans, copy_in};
use std::marker::Model;

/// The answer to a command: its reply, or the status of its refusal.
pub type Answer<'a> = Result<Reply<'a>, Status>;

/// Room for the answer to one command, which is allocated once and then reused.
#[derive(Drop)]
pub struct AnswerRoom {
    room: ReplyRoom,
    refusal: Option<Status>,
}

impl Model for AnswerRoom {
    ghost use Rattle.nv_driver.specs.Answer.{Answer};

    ghost Value = { Answer };

    ghost use Rattle.nv_driver.specs.Answer.{answer_kept};

    ghost view = { λ s. answer_kept s.room s.refusal };
}

impl AnswerRoom {
    /// Creates room that holds only success.
    pub fn new() -> AnswerRoom
        ensures { result ≡ Ok Done }
    {
        AnswerRoom {
            room: ReplyRoom::new(),
            refusal: None,
        }
    }

    /// Returns the answer that it holds.
    pub fn answer(&self) -> Answer<'_>
        ensures { result ≡ self.now }
    {
        match self.refusal {
            Some(status) => Err(status),
            None => Ok(self.room.reply()),
        }
    }

    /// Replaces the answer by that to a command, from its completion and the data that the controller
    /// sent to its place. Section "Completion Queue Entry".
    pub(crate) fn receive<M: HostMemory>(
        &mut self,
        mem: &M,
        data_room: &mut DataRoom,
        place: &DataPlace,
        command: &Command,
        completion: &Cqe,
    )
        requires sends { IsSendable command.now }
        requires buffer { IsBuffer (M.bytes mem.now) (M.page_len mem.now)
            place.now.buffer.pages.now place.now.buffer.offset
            (length_of (transfer_by command.now)) }
        ensures answer { self.new ≡ answer_from command.now completion.now (received_from
            (transfer_by command.now) (M.bytes mem.now) (buffer_places
            (M.page_len mem.now) place.now.buffer.pages.now place.now.buffer.offset
            (length_of (transfer_by command.now)))) }
    {
        if !completion.status.is_success() {
            self.refusal = Some(completion.status);
            return;
        }
        self.refusal = None;
        let dword0 = completion.command_specific;
        match command.transfer() {
            Transfer::ToHost(len) => {
                let len = len as u32;
                let (spans, data) = (&mut data_room.spans, &mut data_room.data);
                let sent = read_sent(mem, &place.buffer, len, spans, data);
                self.room.read(command, dword0, sent);
            }
            Transfer::NoData => self.room.read(command, dword0, &[]),
            Transfer::FromHost(_) => self.room.read(command, dword0, &[]),
        }
    }
}

/// Returns the `len` bytes that the controller sent to the buffer of a command's data: where they
/// lie, if that is in one page, or else a copy.
#[tactic(auto, using(crate::proofs::PaddingLaws::one_page))]
fn read_sent<'a, M: HostMemory>(
    mem: &'a M,
    buffer: &Buffer,
    len: u32,
    spans: &mut Spans,
    data: &'a mut [u8; 16384],
) -> &'a [u8]
    requires few { len ≤ most_bytes }
    requires buffer { IsBuffer (M.bytes mem.now) (M.page_len mem.now)
        buffer.now.pages.now buffer.now.offset len }
    ensures bytes { result.now ≡ read_at (M.bytes mem.now)
        (buffer_places (M.page_len mem.now) buffer.now.pages.now buffer.now.offset len) }
    ensures len { length result.now ≡ len }
{
    let page_size = mem.page_size();
    let end = buffer.offset + len;
    let in_one_page = 0 < len && end <= page_size;
    if in_one_page {
        let page = mem.page(buffer.pages[0]);
        return &page[buffer.offset as usize..end as usize];
    }
    buffer.spans(mem, len, spans);
    let sent = &mut data[..len as usize];
    copy_in(mem, spans, sent);
    sent
}
