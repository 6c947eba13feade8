//! The header of an answer.

ghost use Rattle.std.specs.Prelude.{◌≡◌};
ghost use Rattle.nv_serve.specs.declared.answer.Outcome.TheVariants.{Answered};
ghost use Rattle.nv_serve.specs.Answer.{bare, bytes_of_header, outcome_number};

use byteorder::{ByteOrder, LittleEndian};
use nv_layout::Status;

/// What happened to a request.
#[derive(Clone, Copy, Debug, PartialEq, Eq)]
pub enum Outcome {
    /// 0: the controller did what the request says. For an entry, the status says how it ended.
    Answered,
    /// 1: the controller doesn't exist.
    NoController,
    /// 2: the kind of request doesn't exist.
    NoKind,
    /// 3: the request asks for more data than is allowed. It is the last one.
    TooLong,
}

impl Outcome {
    /// Returns its number.
    pub fn number(self) -> u16
        ensures { result ≡ outcome_number self }
    {
        match self {
            Outcome::Answered => 0,
            Outcome::NoController => 1,
            Outcome::NoKind => 2,
            Outcome::TooLong => 3,
        }
    }
}

/// The first 12 bytes of an answer, little-endian: dword 0, status, outcome and length.
#[derive(Clone, Copy, Debug, PartialEq, Eq)]
pub struct AnswerHeader {
    /// Dword 0 of the completion.
    pub dword0: u32,
    /// The status field, of 15 bits.
    pub status: Status,
    pub outcome: Outcome,
    /// How many bytes of data follow.
    pub length: u32,
}

impl AnswerHeader {
    /// Returns a header with no data and no status of a command.
    pub(crate) fn bare(outcome: Outcome) -> AnswerHeader
        ensures { result ≡ bare outcome }
    {
        AnswerHeader {
            dword0: 0,
            status: Status::SUCCESS,
            outcome,
            length: 0,
        }
    }

    /// Returns the header of a completion that `length` bytes of data follow.
    pub(crate) fn returned(dword0: u32, status: Status, length: u32) -> AnswerHeader
        ensures { result ≡ record {
          dword0 = dword0;
          status = status;
          outcome = Answered;
          length = length;
        } }
    {
        AnswerHeader {
            dword0,
            status,
            outcome: Outcome::Answered,
            length,
        }
    }

    /// Writes the header's bytes.
    #[tactic(auto, unfolding(nv_layout::specs::Parts::placed, nv_layout::specs::Parts::zeros))]
    pub fn put(&self, out: &mut [u8; 12])
        ensures { out.new ≡ bytes_of_header self.now }
    {
        out.fill(0);
        LittleEndian::write_u32(out, self.dword0);
        LittleEndian::write_u16(&mut out[4..], self.status.number());
        LittleEndian::write_u16(&mut out[6..], self.outcome.number());
        LittleEndian::write_u32(&mut out[8..], self.length);
    }
}
