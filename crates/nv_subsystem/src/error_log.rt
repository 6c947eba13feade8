//! The error log of a controller.

ghost use Rattle.std.specs.Prelude.{◌≡◌, ◌-◌, ◌≤◌, ◌∷◌, ◌++◌, [], length, replicate, take};
ghost use Rattle.std.specs.Prelude.{slice_get, IfOk};
ghost use Rattle.nv_layout.specs.ErrorEntry.{no_entry};
ghost use Rattle.nv_model.specs.Step.{log_entry};
ghost use Rattle.nv_subsystem.specs.Tagged.{with_phase};

use circular_buffer::HeapCircularBuffer;
use nv_command::Refusal;
use nv_layout::{ErrorEntries, ErrorEntry};
use nv_model::Origin;
use std::alloc::{AllocError, Global};
use std::marker::Model;

/// The newest refusals of a controller, newest first. The memory for them is allocated once. Each
/// entry has the phase tag of its completion.
#[derive(Drop)]
pub struct ErrorLog {
    entries: HeapCircularBuffer<ErrorEntry>,
}

impl Model for ErrorLog {
    ghost use Rattle.std.specs.Prelude.{◌≤◌, length};
    ghost use Rattle.nv_model.specs.ErrorLog.{Log};

    ghost Value = { Log };

    ghost view = { λ l. record {
      most = l.entries.capacity;
      entries = l.entries.items;
    } };

    ghost invariant = { λ l.
        (length l.entries.items ≤ l.entries.capacity) × (l.entries.capacity ≤ 256) };
}

/// Returns the log entry for a refused command of the admin queue. It names no field of the command
/// and no logical block. Section "Error Information (Log Identifier 01h)".
fn log_entry(count: u64, origin: Origin, nsid: u32, refusal: Refusal) -> ErrorEntry
    ensures { result ≡ with_phase origin.phase (log_entry count origin.cid nsid refusal) }
{
    ErrorEntry {
        count,
        sqid: 0,
        cid: origin.cid,
        status: refusal.status,
        phase: origin.phase,
        location: 0xffff,
        lba: 0,
        nsid,
        vendor: 0,
        specific: refusal.specific,
    }
}

impl ErrorLog {
    /// Creates an empty log with room for `most` entries.
    pub(crate) fn new(alloc: Global, most: u16) -> Result<ErrorLog, AllocError>
        requires { most ≤ 256 }
        ensures { IfOk result (λ l. l ≡ record { most = most; entries = [] }) }
    {
        let entries = HeapCircularBuffer::with_capacity(alloc, most as usize)?;
        Ok(ErrorLog { entries })
    }

    /// Records a refusal as the newest entry. If the log is full, it replaces the oldest.
    pub(crate) fn book(&mut self, count: u64, origin: Origin, nsid: u32, refusal: Refusal)
        ensures { self.new ≡ record self.old {
          entries = take self.old.most
              (with_phase origin.phase (log_entry count origin.cid nsid refusal)
              ∷ self.old.entries);
        } }
    {
        self.entries
            .push_front(log_entry(count, origin, nsid, refusal));
    }

    /// The entry at an index from the newest on.
    pub(crate) fn get(&self, index: usize) -> Option<ErrorEntry>
        ensures { result ≡ slice_get self.now.entries index }
    {
        self.entries.get(index).copied()
    }

    /// Returns all entries, newest first, borrowed, and then entries without an error for the rest
    /// of the room.
    pub(crate) fn entries(&self) -> ErrorEntries<'_>
        ensures { result
            ≡ self.now.entries ++ replicate (self.now.most - length self.now.entries) no_entry }
    {
        let (newest, older) = self.entries.as_slices();
        ErrorEntries::new(newest, older, self.entries.capacity())
    }
}
