//! Replies, and the bytes of those that are logs.

ghost use Rattle.std.specs.Prelude.{◌≡◌, length};
ghost use Rattle.nv_layout.specs.Parts.{part};
ghost use Rattle.nv_command.specs.Reply.{log_of};

use crate::borrowed::Borrowed;
use nv_layout::{ErrorEntries, IdCtrl, IdNs, NamespaceIds, Smart};

/// The reply to an accepted command. Records, lists and entries are borrowed.
#[derive(Drop)]
pub enum Reply<'a> {
    /// The data of a controller.
    Controller(Borrowed<'a, IdCtrl>),
    /// The data of a namespace.
    Namespace(Borrowed<'a, IdNs>),
    /// NSIDs, in ascending order.
    List(NamespaceIds<'a>),
    /// A number, in dword 0.
    Number(u32),
    /// Success without a value.
    Done,
    /// The error log, the newest entry first.
    Errors(ErrorEntries<'a>),
    /// The health log.
    Smart(Borrowed<'a, Smart>),
}

impl<'a> Reply<'a> {
    /// Fills `out` with the bytes of its log from `from` on, and with zeros past the log's end, or
    /// with zeros alone if it is no log.
    pub fn fill(&self, from: usize, out: &mut [u8])
        ensures { out.new ≡ part (log_of self.now) from (length out.old) }
    {
        match self {
            Reply::Errors(entries) => entries.fill(from, out),
            Reply::Smart(smart) => {
                let mut bytes = [0; 512];
                smart.get().put(&mut bytes);
                fill_from(&bytes, from, out)
            }
            _ => fill_from(&[], from, out),
        }
    }
}

/// Fills `out` with the bytes from `from` on, and with zeros past their end.
fn fill_from(bytes: &[u8], from: usize, out: &mut [u8])
    ensures { out.new ≡ part bytes.now from (length out.old) }
{
    let from = from.min(bytes.len());
    let count = out.len().min(bytes.len() - from);
    let (written, past) = out.split_at_mut(count);
    written.copy_from_slice(&bytes[from..from + count]);
    past.fill(0);
}
