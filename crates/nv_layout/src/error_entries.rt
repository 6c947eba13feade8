//! The entries of an error log, borrowed.

ghost use Rattle.std.specs.Prelude.{◌≡◌, ◌≤◌, ◌<◌, ◌+◌, ◌-◌, ◌*◌, ◌++◌, List, get_or, length};
ghost use Rattle.std.specs.Prelude.{replicate, take};
ghost use Rattle.nv_layout.specs.ErrorEntryBytes.{bytes_of_entries, bytes_of_error_entry};
ghost use Rattle.nv_layout.specs.ErrorEntry.{no_entry};
ghost use Rattle.nv_layout.specs.Parts.{part};
ghost use Rattle.nv_layout.specs.declared.error_entry.ErrorEntry.{ErrorEntry};

use crate::error_entry::ErrorEntry;
use std::marker::Model;

/// Up to 256 entries of an error log that are borrowed, the newest first. Those that the log
/// doesn't have hold no error. Section "Error Information (Log Identifier 01h)".
#[derive(Drop)]
pub struct ErrorEntries<'a> {
    newest: &'a [ErrorEntry],
    older: &'a [ErrorEntry],
    count: usize,
}

impl<'a> Model for ErrorEntries<'a> {
    ghost Value = { List ErrorEntry };

    ghost view = { λ s. s.newest.now ++ s.older.now
        ++ replicate (s.count - (length s.newest.now + length s.older.now)) no_entry };

    ghost invariant = { λ s. (length s.newest.now + length s.older.now ≤ s.count)
        × (s.count ≤ 256) };
}

impl<'a> ErrorEntries<'a> {
    /// Creates `count` entries: the given ones, and then entries that hold no error.
    pub fn new(newest: &'a [ErrorEntry], older: &'a [ErrorEntry], count: usize) -> ErrorEntries<'a>
        requires room { length newest.now + length older.now ≤ count }
        requires within { count ≤ 256 }
        ensures { result ≡ newest.now ++ older.now
            ++ replicate (count - (length newest.now + length older.now)) no_entry }
    {
        ErrorEntries {
            newest,
            older,
            count,
        }
    }

    /// Returns how many entries there are.
    pub fn len(&self) -> usize
        ensures count { result ≡ length self.now }
        ensures within { result ≤ 256 }
    {
        self.count
    }

    /// Returns a number of entries, at most all, after which none holds an error.
    #[tactic(auto, using(crate::proofs::LogLaws::present_first))]
    pub fn present(&self) -> usize
        ensures within { result ≤ length self.now }
        ensures few { result ≤ 256 }
        ensures past { self.now
            ≡ take result self.now ++ replicate (length self.now - result) no_entry }
    {
        self.newest.len() + self.older.len()
    }

    /// Returns the entry at an index, counted from the newest. It holds no error if the index is
    /// past the last one.
    pub fn get(&self, index: usize) -> ErrorEntry
        ensures { result ≡ get_or self.now index no_entry }
    {
        let newest = self.newest.len();
        if index < newest {
            return self.newest[index];
        }
        match self.older.get(index - newest) {
            Some(entry) => *entry,
            None => ErrorEntry::NONE,
        }
    }

    /// Fills `out` with the bytes of the entries from `from` on, and with zeros past their end.
    pub fn fill(&self, from: usize, out: &mut [u8])
        ensures { out.new ≡ part (bytes_of_entries self.now) from (length out.old) }
    {
        let end = 64 * self.present();
        let from = from.min(end);
        let count = out.len().min(end - from);
        let (written, past) = out.split_at_mut(count);
        self.fill_within(from, written);
        past.fill(0);
    }

    /// Fills `out` with the bytes of the entries from `from` on, entry by entry.
    fn fill_within(&self, from: usize, out: &mut [u8])
        requires { from + length out.old ≤ 64 * 256 }
        ensures { out.new ≡ part (bytes_of_entries self.now) from (length out.old) }
    {
        let mut done = 0;
        while done < out.len() {
            let place = from + done;
            let end = done + (64 - place % 64).min(out.len() - done);
            put_part(&self.get(place / 64), place % 64, &mut out[done..end]);
            done = end;
        }
    }
}

/// Fills `out` with the bytes of an entry from `from` on, as many as fit.
#[tactic(auto, using(crate::proofs::PartLaws::part_within))]
fn put_part(entry: &ErrorEntry, from: usize, out: &mut [u8])
    requires { from + length out.old ≤ 64 }
    ensures { out.new ≡ part (bytes_of_error_entry entry.now) from (length out.old) }
{
    let mut bytes = [0; 64];
    entry.put(&mut bytes);
    out.copy_from_slice(&bytes[from..from + out.len()]);
}
