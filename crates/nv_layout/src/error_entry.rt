//! Entries of the error log.

use crate::cqe::Status;
use crate::parts::{
    bits_of, clear, put_u8, put_u16, put_u32, put_u64, to_bits, u8_at, u16_at, u32_at, u64_at,
};

/// An entry of the Error Information log, for one command that failed. Section "Error Information
/// (Log Identifier 01h)".
#[derive(Clone, Copy, Debug, PartialEq, Eq)]
pub struct ErrorEntry {
    /// Error Count: the number of this error, which no other error has. It is 0 if the entry holds
    /// none.
    pub count: u64,
    /// Submission Queue ID.
    pub sqid: u16,
    /// Command ID.
    pub cid: u16,
    /// Status Field, without its phase tag.
    pub status: Status,
    /// The phase tag below the status field.
    pub phase: bool,
    /// Parameter Error Location.
    pub location: u16,
    /// LBA: the first logical block that had the error.
    pub lba: u64,
    /// Namespace Identifier.
    pub nsid: u32,
    /// Vendor Specific Information Available.
    pub vendor: u8,
    /// Command Specific Information.
    pub specific: u64,
}

impl ErrorEntry {
    ghost use Rattle.std.specs.Prelude.{◌≡◌};
    ghost use Rattle.nv_layout.specs.ErrorEntryBytes.{bytes_of_error_entry, error_entry_of_bytes};
    ghost use Rattle.nv_layout.specs.ErrorEntryBytes.{status_word};

    /// The entry that holds no error, which is 0 throughout.
    pub const NONE: ErrorEntry = ErrorEntry {
        count: 0,
        sqid: 0,
        cid: 0,
        status: Status::SUCCESS,
        phase: false,
        location: 0,
        lba: 0,
        nsid: 0,
        vendor: 0,
        specific: 0,
    };

    fn status_word(&self) -> u16
        ensures { result ≡ status_word self.now }
    {
        let word = to_bits(self.phase as u32, 0, 1) + to_bits(self.status.number() as u32, 1, 15);
        word as u16
    }

    /// Writes the entry's bytes. The status code type is cut to its three bits, and the retry delay
    /// to its two.
    #[tactic(auto, unfolding(crate::specs::ErrorEntryBytes::bytes_of_error_entry))]
    pub fn put(&self, out: &mut [u8; 64])
        ensures { out.new ≡ bytes_of_error_entry self.now }
    {
        clear(out);
        put_u64(out, 0, self.count);
        put_u16(out, 8, self.sqid);
        put_u16(out, 10, self.cid);
        put_u16(out, 12, self.status_word());
        put_u16(out, 14, self.location);
        put_u64(out, 16, self.lba);
        put_u32(out, 24, self.nsid);
        put_u8(out, 28, self.vendor);
        put_u64(out, 32, self.specific);
    }

    /// Reads an entry from its bytes.
    #[tactic(auto, unfolding(crate::specs::ErrorEntryBytes::error_entry_of_bytes))]
    pub fn get(bytes: &[u8; 64]) -> ErrorEntry
        ensures { result ≡ error_entry_of_bytes bytes.now }
    {
        let word = u16_at(bytes, 12) as u32;
        ErrorEntry {
            count: u64_at(bytes, 0),
            sqid: u16_at(bytes, 8),
            cid: u16_at(bytes, 10),
            status: Status::from_number(bits_of(word, 1, 15) as u16),
            phase: bits_of(word, 0, 1) == 1,
            location: u16_at(bytes, 14),
            lba: u64_at(bytes, 16),
            nsid: u32_at(bytes, 24),
            vendor: u8_at(bytes, 28),
            specific: u64_at(bytes, 32),
        }
    }
}
