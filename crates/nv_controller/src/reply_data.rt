//! The data of replies that is sent to the host.

ghost use Rattle.std.specs.Prelude.{◌≡◌, ◌≤◌, [], length};
ghost use Rattle.std.specs.Bool.{MatchBool};
ghost use Rattle.nv_command.specs.Reply.{data_of, log_of, page_of};

use nv_command::{Command, Reply};
use nv_host::Payload;

/// The greatest length of a log in bytes: 256 entries of 64 bytes.
const LONGEST_LOG: u64 = 16_384;

/// The data of the reply to a command: a page, or the part of a log that is asked for.
#[derive(Drop)]
pub struct ReplyData<'a, 'b, 'c> {
    pub command: &'a Command<'b>,
    pub reply: &'a Reply<'c>,
    ghost short: { length (log_of reply.now) ≤ 16384 },
}

impl<'a, 'b, 'c> ReplyData<'a, 'b, 'c> {
    /// Writes the page of the reply, and returns whether it has one. If it has none, the contents of
    /// `page` don't matter afterwards.
    fn put(&self, page: &mut [u8; 4096]) -> bool
        ensures { let bytes = page_of self.now.reply.now in
            MatchBool result (page.new ≡ bytes) (bytes ≡ []) }
    {
        match self.reply {
            Reply::Controller(data) => data.get().put(page),
            Reply::Namespace(data) => data.get().put(page),
            Reply::List(ids) => ids.put(page),
            _ => return false,
        }
        true
    }
}

impl<'a, 'b, 'c> Payload for ReplyData<'a, 'b, 'c> {
    ghost bytes = { λ d. data_of d.command.now d.reply.now };

    fn fill(&self, at: usize, out: &mut [u8]) {
        if let Command::GetLog(asked) = self.command {
            // There are zeros past the log's end, wherever the part begins.
            let from = asked.offset.min(LONGEST_LOG) as usize;
            let past = at.min(LONGEST_LOG as usize);
            self.reply.fill(from + past, out);
            return;
        }
        if let Some(page) = out.as_mut_array() {
            self.put(page);
            return;
        }
        let mut page = [0; 4096];
        if self.put(&mut page) {
            out.copy_from_slice(&page[at..at + out.len()]);
        }
    }
}
