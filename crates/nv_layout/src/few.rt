//! Lists with a greatest length.

ghost use Rattle.std.specs.Prelude.{◌≡◌, ◌≤◌, ◌<◌, ◌↔◌, ◌++◌, ◌∷◌, [], IsTrue, List, length, take};

use std::fmt;
use std::marker::Model;

/// A list of up to `MOST` items, which owns them.
#[derive(Clone, Drop)]
pub struct Few<T, const MOST: usize> {
    pub(crate) items: [T; MOST],
    pub(crate) len: usize,
}

impl<T, const MOST: usize> Model for Few<T, MOST> {
    ghost Value = { List T };

    ghost view = { λ s. take s.len s.items };

    ghost invariant = { λ s. s.len ≤ MOST };
}

/// Lists are equal if their items are equal, in order.
impl<T: PartialEq, const MOST: usize> PartialEq for Few<T, MOST> {
    ghost use Rattle.std.specs.Cmp.Lexicographic.{lists_per, pointwise};

    ghost eq = { λ a b. pointwise T.eq a b };

    ghost laws = { lists_per T.laws };

    fn eq(&self, other: &Few<T, MOST>) -> bool {
        self.ids() == other.ids()
    }
}

impl<T: Eq, const MOST: usize> Eq for Few<T, MOST> {
    ghost use Rattle.std.specs.Cmp.Lexicographic.{lists_equiv};

    ghost laws = { lists_equiv T.Eq.laws };
}

impl<T: fmt::Debug, const MOST: usize> fmt::Debug for Few<T, MOST> {
    fn fmt<W: fmt::Write>(&self, f: &mut fmt::Formatter<W>) -> fmt::Result {
        f.debug_list().entries(self.as_slice().iter()).finish()
    }
}

impl<T: Copy + Default, const MOST: usize> Few<T, MOST> {
    /// Creates an empty list.
    pub fn new() -> Few<T, MOST>
        ensures { result ≡ [] }
    {
        Few {
            items: [T::default(); MOST],
            len: 0,
        }
    }
}

impl<T, const MOST: usize> Few<T, MOST> {
    /// Returns how many items the list has.
    pub fn len(&self) -> usize
        ensures count { result ≡ length self.now }
        ensures within { result ≤ MOST }
    {
        self.as_slice().len()
    }

    /// Returns whether the list has no items.
    pub fn is_empty(&self) -> bool
        ensures { IsTrue result ↔ (self.now ≡ []) }
    {
        self.as_slice().is_empty()
    }

    /// Returns the items in order.
    pub fn as_slice(&self) -> &[T]
        ensures items { result.now ≡ self.now }
        ensures within { length self.now ≤ MOST }
    {
        &self.items[..self.len]
    }

    /// Returns the items in order, borrowed from the list.
    pub fn ids(&self) -> Lent<'_, T, MOST>
        ensures { result ≡ self.now }
    {
        Lent::new(self.as_slice())
    }

    /// Removes all items.
    pub fn clear(&mut self)
        ensures { self.new ≡ [] }
    {
        self.len = 0;
    }
}

impl<T: Copy, const MOST: usize> Few<T, MOST> {
    /// Adds an item at the end.
    pub fn push(&mut self, item: T)
        requires { length self.old < MOST }
        ensures { self.new ≡ self.old ++ item ∷ [] }
    {
        self.items[self.len] = item;
        self.len += 1;
    }
}

/// A list of up to `MOST` items, which are borrowed.
#[derive(Drop)]
pub struct Lent<'a, T, const MOST: usize> {
    lent: &'a [T],
}

impl<'a, T, const MOST: usize> Model for Lent<'a, T, MOST> {
    ghost Value = { List T };

    ghost view = { λ s. s.lent.now };

    ghost invariant = { λ s. length s.lent.now ≤ MOST };
}

/// Lists are equal if their items are equal, in order.
impl<'a, T: PartialEq, const MOST: usize> PartialEq for Lent<'a, T, MOST> {
    ghost use Rattle.std.specs.Cmp.Lexicographic.{lists_per, pointwise};

    ghost eq = { λ a b. pointwise T.eq a b };

    ghost laws = { lists_per T.laws };

    fn eq(&self, other: &Lent<'a, T, MOST>) -> bool {
        self.as_slice() == other.as_slice()
    }
}

impl<'a, T: Eq, const MOST: usize> Eq for Lent<'a, T, MOST> {
    ghost use Rattle.std.specs.Cmp.Lexicographic.{lists_equiv};

    ghost laws = { lists_equiv T.Eq.laws };
}

impl<'a, T: fmt::Debug, const MOST: usize> fmt::Debug for Lent<'a, T, MOST> {
    fn fmt<W: fmt::Write>(&self, f: &mut fmt::Formatter<W>) -> fmt::Result {
        f.debug_list().entries(self.as_slice().iter()).finish()
    }
}

impl<'a, T, const MOST: usize> Lent<'a, T, MOST> {
    /// Creates the list of these items.
    pub fn new(items: &'a [T]) -> Lent<'a, T, MOST>
        requires { length items.now ≤ MOST }
        ensures { result ≡ items.now }
    {
        Lent { lent: items }
    }

    /// Returns the items in order.
    pub fn as_slice(&self) -> &[T]
        ensures items { result.now ≡ self.now }
        ensures within { length self.now ≤ MOST }
    {
        self.lent
    }
}
