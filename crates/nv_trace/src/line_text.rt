//! The text of one line.

ghost use Rattle.std.specs.Prelude.{◌≡◌, ◌++◌, ◌∷◌, [], ◌≤◌, length, take};
ghost use Rattle.std.specs.Fmt.{decimal};
ghost use Rattle.nv_trace.specs.Lines.{hex};

use crate::hexadecimal::digits_of;
use itoa::Buffer;
use std::cmp;
use std::marker::Model;

/// The greatest length of a line in bytes, without its newline.
const LINE_ROOM: usize = 319;

/// A line with room for a newline. What doesn't fit is cut off.
#[derive(Drop)]
pub(crate) struct LineText {
    bytes: [u8; 320],
    len: usize,
}

impl Model for LineText {
    ghost use Rattle.std.specs.Prelude.{ℕ, ◌≤◌, List, take};

    ghost Value = { List ℕ };

    ghost view = { λ l. take l.len l.bytes };

    ghost invariant = { λ l. l.len ≤ 319 };
}

impl LineText {
    /// Creates an empty line.
    pub(crate) fn new() -> LineText
        ensures { result ≡ [] }
    {
        LineText {
            bytes: [0; 320],
            len: 0,
        }
    }

    /// Adds the bytes of a text.
    #[tactic(auto, using(crate::proofs::LineLaws::longer))]
    fn add_bytes(&mut self, bytes: &[u8])
        ensures { self.new ≡ take 319 (self.old ++ bytes.now) }
    {
        let count = cmp::min(bytes.len(), LINE_ROOM - self.len);
        self.bytes[self.len..self.len + count].copy_from_slice(&bytes[..count]);
        self.len += count;
    }

    pub(crate) fn add(&mut self, text: &str)
        ensures { self.new ≡ take 319 (self.old ++ text.now) }
    {
        self.add_bytes(text.as_bytes());
    }

    /// Adds a number in decimal digits.
    pub(crate) fn add_decimal(&mut self, number: u16)
        ensures { self.new ≡ take 319 (self.old ++ decimal number) }
    {
        let mut room = Buffer::new();
        self.add(room.format(number));
    }

    /// Adds a number in hexadecimal digits.
    pub(crate) fn add_hex(&mut self, number: u64)
        ensures { self.new ≡ take 319 (self.old ++ hex number) }
    {
        let mut room = [0; 16];
        self.add_bytes(digits_of(&mut room, number));
    }

    /// Returns the line with its newline.
    #[tactic(auto, using(crate::proofs::LineLaws::ends))]
    pub(crate) fn ended(&mut self) -> &[u8]
        ensures { result.now ≡ self.old ++ 10 ∷ [] }
    {
        self.bytes[self.len] = b'\n';
        &self.bytes[..self.len + 1]
    }
}
