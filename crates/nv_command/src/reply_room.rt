//! Room for one reply, with what it borrows.

ghost use Rattle.std.specs.Prelude.{◌≡◌, ◌-◌, ◌≤◌, List, drop, length, map, replicate};
ghost use Rattle.std.specs.Simd.{first_chunks};
ghost use Rattle.nv_layout.specs.ErrorEntry.{no_entry};
ghost use Rattle.nv_layout.specs.Limits.{most_nsids};
ghost use Rattle.nv_layout.specs.declared.error_entry.ErrorEntry.{ErrorEntry};
ghost use Rattle.nv_command.specs.Command.{bytes_to_host, transfer_by};
ghost use Rattle.nv_command.specs.Logs.{IsSendable, entry_received};
ghost use Rattle.nv_command.specs.Reply.{reply_in};
ghost use Rattle.nv_command.specs.Room.{entries_held};
ghost use Rattle.nv_command.specs.declared.reply.Reply.TheVariants.{Done};

use crate::borrowed::Borrowed;
use crate::command::Command;
use crate::reply::Reply;
use crate::transfer::ReplyKind;
use nv_layout::{ErrorEntries, ErrorEntry, IdCtrl, IdNs, NsList, Smart};
use std::marker::Model;

/// What is stored. A list and entries are stored separately.
#[derive(Clone, Copy)]
enum StoredReply {
    Controller(IdCtrl),
    Namespace(IdNs),
    List,
    Number(u32),
    Done,
    /// The number of entries of the error log, and how many of them, the first ones, are stored;
    /// the others hold no error.
    Errors { count: usize, present: usize },
    Smart(Smart),
}

/// Room for one reply, which is allocated once and then reused.
#[derive(Drop)]
pub struct ReplyRoom {
    held: StoredReply,
    list: NsList,
    entries: [ErrorEntry; 256],
}

impl Model for ReplyRoom {
    ghost use Rattle.nv_command.specs.declared.reply.Reply.{Reply};

    ghost Value = { Reply };

    ghost use Rattle.nv_command.specs.Room.{IsRoom, reply_held};

    ghost view = { λ s. reply_held s.held s.list s.entries };

    ghost invariant = { λ s. IsRoom s.held };
}

impl ReplyRoom {
    /// Creates storage that holds `Done`.
    pub fn new() -> ReplyRoom
        ensures { result ≡ Done }
    {
        ReplyRoom {
            held: StoredReply::Done,
            list: NsList::new(),
            entries: [ErrorEntry::NONE; 256],
        }
    }

    /// Returns the reply that is stored.
    pub fn reply(&self) -> Reply<'_>
        ensures { result ≡ self.now }
    {
        match &self.held {
            StoredReply::Controller(controller) => Reply::Controller(Borrowed::new(controller)),
            StoredReply::Namespace(namespace) => Reply::Namespace(Borrowed::new(namespace)),
            StoredReply::List => Reply::List(self.list.ids()),
            StoredReply::Number(number) => Reply::Number(*number),
            StoredReply::Done => Reply::Done,
            StoredReply::Errors { count, present } => {
                let entries = &self.entries[..*present];
                Reply::Errors(ErrorEntries::new(entries, &[], *count))
            }
            StoredReply::Smart(smart) => Reply::Smart(Borrowed::new(smart)),
        }
    }

    /// Stores a copy of a reply.
    pub fn keep(&mut self, reply: &Reply)
        ensures { self.new ≡ reply.now }
    {
        match reply {
            Reply::Controller(controller) => self.held = StoredReply::Controller(*controller.get()),
            Reply::Namespace(namespace) => self.held = StoredReply::Namespace(*namespace.get()),
            Reply::List(ids) => {
                keep_ids(ids.as_slice(), &mut self.list);
                self.held = StoredReply::List;
            }
            Reply::Number(number) => self.held = StoredReply::Number(*number),
            Reply::Done => self.held = StoredReply::Done,
            Reply::Errors(entries) => {
                let present = keep_entries(entries, &mut self.entries);
                self.held = StoredReply::Errors {
                    count: entries.len(),
                    present,
                };
            }
            Reply::Smart(smart) => self.held = StoredReply::Smart(*smart.get()),
        }
    }

    /// Reads the reply to a command from dword 0 of its completion and the data to the host, and
    /// stores it. What the command has no use for is ignored. Each case is stored where it is read,
    /// so that only its own bytes are written.
    #[tactic(auto, using(crate::proofs::FormLaws::size_of_reply))]
    pub fn read(&mut self, command: &Command, dword0: u32, bytes: &[u8])
        requires sendable { IsSendable command.now }
        requires size { length bytes.now ≡ bytes_to_host (transfer_by command.now) }
        ensures { self.new ≡ reply_in command.now dword0 bytes.now }
    {
        match command.form().reply {
            ReplyKind::Controller => self.held = StoredReply::Controller(IdCtrl::get(part_of(
                bytes,
            ))),
            ReplyKind::Namespace => self.held = StoredReply::Namespace(IdNs::get(part_of(bytes))),
            ReplyKind::List => {
                self.list.read(part_of(bytes));
                self.held = StoredReply::List;
            }
            ReplyKind::Number => self.held = StoredReply::Number(dword0),
            ReplyKind::Done => self.held = StoredReply::Done,
            ReplyKind::Errors => {
                let (chunks, _) = bytes.as_chunks();
                let present = read_entries(chunks, &mut self.entries);
                self.held = StoredReply::Errors {
                    count: chunks.len(),
                    present,
                };
            }
            ReplyKind::Smart => self.held = StoredReply::Smart(Smart::get(part_of(bytes))),
        }
    }
}

/// Returns bytes as an array.
fn part_of<const N: usize>(bytes: &[u8]) -> &[u8; N]
    requires { length bytes.now ≡ N }
    ensures { result.now ≡ bytes.now }
{
    bytes.first_chunk().unwrap()
}

/// Replaces the contents of a list by identifiers.
fn keep_ids(ids: &[u32], list: &mut NsList)
    requires { length ids.now ≤ most_nsids }
    ensures { list.new ≡ ids.now }
{
    list.clear();
    for nsid in ids {
        list.push(*nsid);
    }
}

/// Copies the entries that may hold an error to the beginning of `out`, and returns how many they
/// are.
fn keep_entries(entries: &ErrorEntries, out: &mut [ErrorEntry; 256]) -> usize
    ensures within { result ≤ length entries.now }
    ensures kept { entries_held (length entries.now) result out.new ≡ entries.now }
{
    let present = entries.present();
    for index in 0..present {
        out[index] = entries.get(index);
    }
    present
}

/// Returns how many entries there are up to the last one that isn't all zeros.
fn written_count(chunks: &[[u8; 64]]) -> usize
    ensures within { result ≤ length chunks.now }
    ensures others { map entry_received (drop result chunks.now)
        ≡ replicate (length chunks.now - result) no_entry }
{
    let mut count = chunks.len();
    while count > 0 && chunks[count - 1] == [0; 64] {
        count -= 1;
    }
    count
}

/// Reads entries to the beginning of `out`, without their phase tags, up to the last one that isn't
/// all zeros, and returns how many they are.
fn read_entries(chunks: &[[u8; 64]], out: &mut [ErrorEntry; 256]) -> usize
    requires { length chunks.now ≤ 256 }
    ensures within { result ≤ length chunks.now }
    ensures read { entries_held (length chunks.now) result out.new
        ≡ map entry_received chunks.now }
{
    let count = written_count(chunks);
    for (index, chunk) in chunks[..count].iter().enumerate() {
        out[index] = ErrorEntry {
            phase: false,
            ..ErrorEntry::get(chunk)
        };
    }
    count
}
