//! A set of numbers from a range.

ghost use Rattle.std.specs.Prelude.{◌≡◌, ◌+◌, ◌^◌, ◌<◌, ◌≤◌, ◌∷◌, [], ℕ, false, true, not, ◌↔◌};
ghost use Rattle.std.specs.Prelude.{IfOk, IfSome, IsTrue, MatchOption, length, replicate, slice_index};
ghost use Rattle.std.specs.Bool.{OnTrue};
ghost use Rattle.std.specs.FinMap as map;
ghost use Rattle.nv_bits.specs.Numbers.{IsLowest, IsNext, IsOf, all_of, insert};
ghost use Rattle.nv_bits.specs.Above.{above};
ghost use Rattle.nv_bits.specs.Words.{bit_of};
ghost use Rattle.nv_bits.specs.inner.Words.{IsLeastFrom};

use std::alloc::{AllocError, Global};
use std::marker::Model;

/// A set of numbers from a range of `count` consecutive ones. Its memory is allocated once, with a
/// bit for each number.
#[derive(Drop)]
pub struct BitSet {
    first: u32,
    count: u32,
    len: u32,
    lowest_word: usize,
    /// Bit k % 64 of word k / 64 is that of number `first` + k.
    words: Vec<u64>,
}

impl Model for BitSet {
    ghost use Rattle.std.specs.Coded.{codes};
    ghost use Rattle.std.specs.FinMap as map;
    ghost use Rattle.nv_bits.specs.BitSet.{AreBits, RangeSet, members_of};

    ghost Value = { RangeSet };

    ghost coded = { Prim.hlevel (codes, map.code) };

    ghost view = { λ s. record {
      first = s.first;
      count = s.count;
      members = members_of s.first s.count s.words.items;
    } };

    ghost invariant = { λ s. AreBits s.first s.count s.len s.lowest_word s.words.items };
}

impl BitSet {
    /// Creates an empty set for the `count` numbers from `first` on.
    pub fn new(alloc: Global, first: u32, count: u32) -> Result<BitSet, AllocError>
        requires { first + count ≤ 2 ^ 32 }
        ensures { IfOk result (λ s. s
            ≡ record { first = first; count = count; members = map.empty }) }
    {
        let words = repeated(alloc, 0, count as usize / 64 + 1)?;
        Ok(BitSet {
            first,
            count,
            len: 0,
            lowest_word: words.len(),
            words,
        })
    }

    /// Creates the set of all `count` numbers from `first` on.
    pub fn full(alloc: Global, first: u32, count: u32) -> Result<BitSet, AllocError>
        requires { first + count ≤ 2 ^ 32 }
        ensures { IfOk result (λ s. s
            ≡ record { first = first; count = count; members = all_of first count }) }
    {
        let mut set = BitSet::new(alloc, first, count)?;
        set.fill();
        Ok(set)
    }

    /// Returns the least number that the set can hold.
    pub fn first(&self) -> u32
        ensures { result ≡ self.now.first }
    {
        self.first
    }

    /// Returns how many numbers the set can hold.
    pub fn count(&self) -> u32
        ensures value { result ≡ self.now.count }
        ensures in_range { self.now.first + result ≤ 2 ^ 32 }
    {
        self.count
    }

    /// Returns how many numbers the set holds.
    pub fn len(&self) -> u32
        ensures value { result ≡ map.len self.now.members }
        ensures within { result ≤ self.now.count }
    {
        self.len
    }

    /// Returns whether the set is empty.
    pub fn is_empty(&self) -> bool
        ensures { IsTrue result ↔ (self.now.members ≡ map.empty) }
    {
        self.len == 0
    }

    /// Returns whether the set holds a number. It holds none outside its range.
    pub fn contains(&self, n: u32) -> bool
        ensures value { result ≡ map.contains_key self.now.members n }
        ensures in_range { OnTrue result (IsOf self.now.first self.now.count n) }
    {
        if n < self.first {
            return false;
        }
        let k = n - self.first;
        k < self.count && self.words[k as usize / 64] & (1 << (k % 64)) != 0
    }

    /// Adds a number of the range, and returns whether it was absent.
    pub fn insert(&mut self, n: u32) -> bool
        requires { IsOf self.old.first self.old.count n }
        ensures members { self.new ≡ record self.old { members = insert self.old.members n } }
        ensures is_new { result ≡ not (map.contains_key self.old.members n) }
    {
        let k = (n - self.first) as usize;
        let is_new = self.words[k / 64] & (1 << (k % 64)) == 0;
        self.words[k / 64] |= 1 << (k % 64);
        self.len += u32::from(is_new);
        self.lowest_word = self.lowest_word.min(k / 64);
        is_new
    }

    /// Removes a number, and returns whether it was present.
    pub fn remove(&mut self, n: u32) -> bool
        ensures members { self.new ≡ record self.old { members = map.remove self.old.members n } }
        ensures is_member { result ≡ map.contains_key self.old.members n }
    {
        if !self.contains(n) {
            return false;
        }
        self.remove_member(n);
        true
    }

    /// Removes a number that the set holds.
    fn remove_member(&mut self, n: u32)
        requires member { map.contains_key self.old.members n ≡ true }
        requires in_range { IsOf self.old.first self.old.count n }
        ensures { self.new ≡ record self.old { members = map.remove self.old.members n } }
    {
        let k = (n - self.first) as usize;
        self.words[k / 64] &= !(1 << (k % 64));
        self.len -= 1;
        self.lowest_word = next_word(&self.words, self.lowest_word);
    }

    /// Removes all numbers.
    pub fn clear(&mut self)
        ensures { self.new ≡ record self.old { members = map.empty } }
    {
        self.words.fill(0);
        self.len = 0;
        self.lowest_word = self.words.len();
    }

    /// Adds all numbers of the range.
    pub fn fill(&mut self)
        ensures { self.new
            ≡ record self.old { members = all_of self.old.first self.old.count } }
    {
        self.words.fill(u64::MAX);
        let last = self.count as usize / 64;
        self.words[last] = (1 << (self.count % 64)) - 1;
        self.len = self.count;
        self.lowest_word = 0;
    }

    /// Returns the lowest number of the set.
    pub fn lowest(&self) -> Option<u32>
        ensures lowest { MatchOption result
            (self.now.members ≡ map.empty)
            (IsLowest self.now.members) }
        ensures in_range { IfSome result (IsOf self.now.first self.now.count) }
    {
        let k = least_from(&self.words, 64 * self.lowest_word)?;
        Some(self.first + k as u32)
    }

    /// Removes and returns the lowest number. Returns none if the set is empty, which then stays
    /// so.
    pub fn take_lowest(&mut self) -> Option<u32>
        ensures taken { MatchOption result
            ((self.old.members ≡ map.empty) × (self.new ≡ self.old))
            (λ n. IsLowest self.old.members n
            × (self.new ≡ record self.old { members = map.remove self.old.members n })) }
        ensures in_range { IfSome result (IsOf self.old.first self.old.count) }
    {
        let lowest = self.lowest()?;
        self.remove_member(lowest);
        Some(lowest)
    }

    /// Returns the lowest number of the set that is greater than `n`.
    pub fn next_above(&self, n: u32) -> Option<u32>
        ensures least { MatchOption result
            ((q : ℕ) → n < q → map.contains_key self.now.members q ≡ false)
            (IsNext self.now.members n) }

        // So the numbers above `n` are listed in ascending order.
        ensures listed { MatchOption result
            (above n (map.keys self.now.members) ≡ [])
            (λ m. above n (map.keys self.now.members) ≡ m ∷ above m (map.keys self.now.members)) }
        ensures in_range { IfSome result (IsOf self.now.first self.now.count) }
    {
        let at = (n as usize + 1).saturating_sub(self.first as usize);
        let k = least_from(&self.words, at)?;
        Some(self.first + k as u32)
    }
}

/// Creates `len` copies of a word.
fn repeated(alloc: Global, word: u64, len: usize) -> Result<Vec<u64>, AllocError>
    ensures { IfOk result (λ words. words.items ≡ replicate len word) }
{
    vec![in alloc; word; len]
}

/// Returns the index of the first word from `from` on that is not 0, or the number of words if
/// there is none.
fn next_word(words: &[u64], from: usize) -> usize
    requires { from ≤ length words.now }
    ensures within { (from ≤ result) × (result ≤ length words.now) }
    ensures zeros { (i : ℕ) → from ≤ i → i < result → slice_index words.now i ≡ 0 }
    ensures found { result < length words.now → 0 < slice_index words.now result }
{
    for i in from..words.len() {
        if words[i] != 0 {
            return i;
        }
    }
    words.len()
}

/// Returns the least set bit from `at` on.
fn least_from(words: &[u64], at: usize) -> Option<usize>
    requires { length words.now ≤ 2 ^ 32 }
    ensures { MatchOption result
        ((k : ℕ) → at ≤ k → bit_of words.now k ≡ false)
        (IsLeastFrom (bit_of words.now) at) }
{
    let word = at / 64;
    if word >= words.len() {
        return None;
    }
    let rest = words[word] >> (at % 64);
    if rest != 0 {
        return Some(at + rest.trailing_zeros() as usize);
    }
    let next = next_word(words, word + 1);
    if next == words.len() {
        return None;
    }
    Some(64 * next + words[next].trailing_zeros() as usize)
}
