//! Numbers of a few bits.

ghost use Rattle.std.specs.Prelude.{◌≡◌, ◌<◌, ◌%◌, ℕ};

use std::marker::Model;

/// A number below a limit, for a field of a few bits.
#[derive(Clone, Copy, Debug, PartialEq, Eq)]
pub struct Below<const LIMIT: u8> {
    value: u8,
}

/// A number of three bits.
pub type ThreeBits = Below<8>;

/// A number of four bits.
pub type FourBits = Below<16>;

impl<const LIMIT: u8> Model for Below<LIMIT> {
    ghost Value = { ℕ };

    ghost view = { λ s. s.value };

    ghost invariant = { λ s. s.value < LIMIT };

    ghost inverse = { λ n. record { value = n } };
}

impl<const LIMIT: u8> Below<LIMIT> {
    /// Returns a number cut to its lowest bits.
    pub fn low(value: u8) -> Below<LIMIT>
        requires { 0 < LIMIT }
        ensures { result ≡ value % LIMIT }
    {
        Below {
            value: value % LIMIT,
        }
    }

    /// Returns the number.
    pub fn get(self) -> u8
        ensures value { result ≡ self.entry }
        ensures small { result < LIMIT }
    {
        self.value
    }
}
