//! A map from the numbers of a range to values.

ghost use Rattle.std.specs.Prelude.{◌≡◌, ◌+◌, ◌^◌, ◌<◌, ◌≤◌, ◌∷◌, [], ℕ, None, false, true, IfOk};
ghost use Rattle.std.specs.Prelude.{IfSome, MatchOption, slice_index_or, vec_len};
ghost use Rattle.std.specs.Bool.{OnTrue};
ghost use Rattle.std.specs.FinMap as map;
ghost use Rattle.nv_bits.specs.Numbers.{IsNext, IsOf};
ghost use Rattle.nv_bits.specs.Above.{above};
ghost use Rattle.nv_bits.specs.VecMap.{IsLowestFree};

use crate::BitSet;
use std::alloc::{AllocError, Global};
use std::marker::Model;

/// A map from numbers to values, where the numbers come from a range of `count` consecutive ones.
/// Its memory is allocated once, with a slot for each number.
#[derive(Drop)]
pub struct VecMap<T> {
    occupied: BitSet,
    free: BitSet,
    slots: Vec<Option<T>>,
}

impl<T> Model for VecMap<T> {
    ghost use Rattle.std.specs.Prelude.{◌≡◌, vec_len};
    ghost use Rattle.std.specs.Coded.{codes};
    ghost use Rattle.std.specs.FinMap as map;
    ghost use Rattle.nv_bits.specs.VecMap.{IsVecMap, RangeMap, values_of};

    ghost Value = { RangeMap T };

    ghost coded = { Prim.hlevel (codes, map.code, T.code) };

    ghost view = { λ s. record {
      first = s.occupied.first;
      count = s.occupied.count;
      values = values_of s.occupied.first s.occupied.count s.slots.items;
    } };

    ghost invariant = { λ s.
        IsVecMap s.occupied s.free (values_of s.occupied.first s.occupied.count s.slots.items)
        × (vec_len s.slots ≡ s.occupied.count) };
}

impl<T: Copy> VecMap<T> {
    /// Creates an empty map for the `count` numbers from `first` on.
    pub fn new(alloc: Global, first: u32, count: u32) -> Result<VecMap<T>, AllocError>
        requires { first + count ≤ 2 ^ 32 }
        ensures { IfOk result (λ s. s
            ≡ record { first = first; count = count; values = map.empty }) }
    {
        let occupied = BitSet::new(alloc, first, count)?;
        let free = BitSet::full(alloc, first, count)?;
        let slots = empty_slots(alloc, count)?;
        Ok(VecMap {
            occupied,
            free,
            slots,
        })
    }

    /// Returns the least number that can have a value.
    pub fn first(&self) -> u32
        ensures { result ≡ self.now.first }
    {
        self.occupied.first()
    }

    /// Returns how many numbers can have a value.
    pub fn count(&self) -> u32
        ensures value { result ≡ self.now.count }
        ensures in_range { self.now.first + result ≤ 2 ^ 32 }
    {
        self.occupied.count()
    }

    /// Returns how many numbers have a value.
    pub fn len(&self) -> u32
        ensures value { result ≡ map.len self.now.values }
        ensures within { result ≤ self.now.count }
    {
        self.occupied.len()
    }

    /// Returns whether a number has a value.
    pub fn contains(&self, n: u32) -> bool
        ensures value { result ≡ map.contains_key self.now.values n }
        ensures in_range { OnTrue result (IsOf self.now.first self.now.count n) }
    {
        self.occupied.contains(n)
    }

    /// Returns the value of a number.
    pub fn get(&self, n: u32) -> Option<T>
        ensures value { result ≡ map.get self.now.values n }
        ensures in_range { IfSome result (λ _. IsOf self.now.first self.now.count n) }
    {
        if !self.contains(n) {
            return None;
        }
        self.slots[(n - self.occupied.first()) as usize]
    }

    /// Sets the value of a number of the range.
    pub fn insert(&mut self, n: u32, value: T)
        requires { IsOf self.old.first self.old.count n }
        ensures { self.new ≡ record self.old { values = map.insert self.old.values n value } }
    {
        let k = (n - self.occupied.first()) as usize;
        self.slots[k] = Some(value);
        self.occupied.insert(n);
        self.free.remove(n);
    }

    /// Removes a number's value, and returns it.
    pub fn remove(&mut self, n: u32) -> Option<T>
        ensures values { self.new ≡ record self.old { values = map.remove self.old.values n } }
        ensures value { result ≡ map.get self.old.values n }
    {
        let value = self.get(n)?;
        let k = (n - self.occupied.first()) as usize;
        self.slots[k] = None;
        self.occupied.remove(n);
        self.free.insert(n);
        Some(value)
    }

    /// Removes all values.
    pub fn clear(&mut self)
        ensures { self.new ≡ record self.old { values = map.empty } }
    {
        empty(&mut self.slots);
        self.occupied.clear();
        self.free.fill();
    }

    /// Returns the lowest number greater than `n` that has a value.
    pub fn next_above(&self, n: u32) -> Option<u32>
        ensures least { MatchOption result
            ((q : ℕ) → n < q → map.contains_key self.now.values q ≡ false)
            (IsNext self.now.values n) }

        // So the numbers above `n` are listed in ascending order.
        ensures listed { MatchOption result
            (above n (map.keys self.now.values) ≡ [])
            (λ m. above n (map.keys self.now.values) ≡ m ∷ above m (map.keys self.now.values)) }
        ensures in_range { IfSome result (IsOf self.now.first self.now.count) }
    {
        self.occupied.next_above(n)
    }

    /// Returns the lowest number of the range that has no value.
    pub fn lowest_free(&self) -> Option<u32>
        ensures { MatchOption result
            ((q : ℕ) → IsOf self.now.first self.now.count q
            → map.contains_key self.now.values q ≡ true)
            (IsLowestFree self.now) }
    {
        self.free.lowest()
    }
}

/// Removes the value of each slot.
fn empty<T: Copy>(slots: &mut [Option<T>])
    ensures { (k : ℕ) → slice_index_or slots.new k None ≡ None }
{
    for slot in slots.iter_mut() {
        *slot = None;
    }
}

/// Creates `count` slots without values.
fn empty_slots<T: Copy>(alloc: Global, count: u32) -> Result<Vec<Option<T>>, AllocError>
    ensures len { IfOk result (λ slots. vec_len slots ≡ count) }
    ensures none { IfOk result (λ slots. (k : ℕ) → slice_index_or slots.items k None ≡ None) }
{
    let mut slots = Vec::with_capacity(alloc, count as usize)?;
    for _i in 0..count {
        slots.push(None)?;
    }
    Ok(slots)
}
