//! Values that their owner lends.

ghost use Rattle.std.specs.Prelude.{◌≡◌};

use std::marker::Model;

/// A value that its owner lends. Contracts see the value itself.
#[derive(Drop)]
pub struct Borrowed<'a, T> {
    value: &'a T,
}

impl<'a, T> Model for Borrowed<'a, T> {
    ghost Value = { T };

    ghost view = { λ b. b.value.now };
}

impl<'a, T> Borrowed<'a, T> {
    /// Lends a value.
    pub fn new(value: &'a T) -> Borrowed<'a, T>
        ensures { result ≡ value.now }
    {
        Borrowed { value }
    }

    /// Returns the value.
    pub fn get(&self) -> &'a T
        ensures { result.now ≡ self.now }
    {
        self.value
    }
}
