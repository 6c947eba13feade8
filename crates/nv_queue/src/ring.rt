//! A ring of slots in the host's memory, with two places in it.

ghost use Rattle.std.specs.Prelude.{◌≡◌, ◌+◌, ◌*◌, ◌<◌, ◌≤◌, ◌↔◌, IsTrue, false, length};
ghost use Rattle.nv_queue.specs.Numbers.{IsDepth, IsSlotBetween, IsWithinRing, distance, first_in_slot};
ghost use Rattle.nv_queue.specs.Numbers.{next, number_of};
ghost use Rattle.nv_queue.specs.Rings.{IsRing, own_number, told_number};

use nv_host::{PagedMemory, size_of_memory};

/// A slot, and whether it is in the second of two passes over the ring.
#[derive(Clone, Copy)]
pub struct RingPlace {
    pub slot: u16,
    pub second: bool,
}

impl RingPlace {
    /// Returns the place of a number below twice the depth.
    pub(crate) fn of_number(number: u16, depth: u16) -> RingPlace
        requires depth { IsDepth depth }
        requires below { number < 2 * depth }
        ensures number { number_of depth result.slot result.second ≡ number }
        ensures within { result.slot < depth }
    {
        if number < depth {
            RingPlace {
                slot: number,
                second: false,
            }
        } else {
            RingPlace {
                slot: number - depth,
                second: true,
            }
        }
    }

    /// Returns the number of the place.
    pub(crate) fn number(self, depth: u16) -> u16
        requires depth { IsDepth depth }
        requires within { self.slot < depth }
        ensures { result ≡ number_of depth self.slot self.second }
    {
        if self.second {
            depth + self.slot
        } else {
            self.slot
        }
    }

    /// Returns the place of the next number.
    #[tactic(auto, using(crate::proofs::PlaceLaws::steps))]
    pub(crate) fn step(self, depth: u16) -> RingPlace
        requires depth { IsDepth depth }
        requires within { self.slot < depth }
        ensures number { number_of depth result.slot result.second
            ≡ next depth (number_of depth self.slot self.second) }
        ensures within { result.slot < depth }
    {
        if self.slot + 1 == depth {
            RingPlace {
                slot: 0,
                second: !self.second,
            }
        } else {
            RingPlace {
                slot: self.slot + 1,
                second: self.second,
            }
        }
    }

    /// Returns whether the way from here to `end`, ends included, passes a slot. `end` is less than
    /// `depth` ahead.
    #[tactic(auto, using(crate::proofs::PlaceLaws::ways))]
    pub(crate) fn meets(self, slot: u16, end: RingPlace, depth: u16) -> bool
        requires depth { IsDepth depth }
        requires within { self.slot < depth }
        requires end { end.slot < depth }
        requires near { distance depth (number_of depth end.slot end.second)
            (number_of depth self.slot self.second) < depth }
        ensures { IsTrue result ↔ IsSlotBetween depth (number_of depth self.slot self.second)
            (number_of depth end.slot end.second) slot }
    {
        if self.slot <= end.slot {
            self.slot <= slot && slot <= end.slot
        } else {
            // the way leads from the last slot to the first one
            self.slot <= slot && slot < depth || slot <= end.slot
        }
    }

    /// Returns the next place with this slot, which may be this one.
    #[tactic(auto, using(crate::proofs::PlaceLaws::firsts))]
    pub(crate) fn reach(self, slot: u16, depth: u16) -> RingPlace
        requires depth { IsDepth depth }
        requires within { self.slot < depth }
        requires slot { slot < depth }
        ensures number { number_of depth result.slot result.second
            ≡ first_in_slot depth (number_of depth self.slot self.second) slot }
        ensures slot { result.slot ≡ slot }
    {
        let second = if slot < self.slot {
            !self.second
        } else {
            self.second
        };
        RingPlace { slot, second }
    }
}

/// A ring as one of the four sides keeps it: its own place, and the place that one side last gave
/// the other, by a doorbell or by the SQ head of a completion.
#[derive(Drop)]
pub struct Ring {
    pub base: u64,
    pub depth: u16,
    pub own: RingPlace,
    pub told: RingPlace,
}

/// Returns whether a ring can have these numbers: fewer than the slots from `low` to `high`.
#[tactic(auto, unfolding(crate::specs::Numbers::distance))]
pub(crate) fn is_within_ring(depth: u16, low: u16, high: u16) -> bool
    ensures { IsTrue result ↔ IsWithinRing depth low high }
{
    if depth < 2 || depth > 4096 || low >= 2 * depth || high >= 2 * depth {
        return false;
    }
    (high + 2 * depth - low) % (2 * depth) < depth
}

impl Ring {
    /// Creates a ring whose two places are those of number 0.
    pub(crate) fn new(base: u64, depth: u16) -> Ring
        ensures { result ≡ record {
          base = base;
          depth = depth;
          own = record { slot = 0; second = false };
          told = record { slot = 0; second = false };
        } }
    {
        let first = RingPlace {
            slot: 0,
            second: false,
        };
        Ring {
            base,
            depth,
            own: first,
            told: first,
        }
    }

    /// Creates a ring whose two places are those of these numbers.
    pub(crate) fn of_numbers(base: u64, depth: u16, own: u16, told: u16) -> Ring
        requires depth { IsDepth depth }
        requires own { own < 2 * depth }
        requires told { told < 2 * depth }
        ensures base { result.base ≡ base }
        ensures depth { result.depth ≡ depth }
        ensures own { own_number result ≡ own }
        ensures told { told_number result ≡ told }
        ensures ring { IsRing result }
    {
        Ring {
            base,
            depth,
            own: RingPlace::of_number(own, depth),
            told: RingPlace::of_number(told, depth),
        }
    }

    /// Returns the numbers of its own place and of the place that was told last.
    pub(crate) fn numbers(&self) -> (u16, u16)
        requires { IsRing self.now }
        ensures { result ≡ (own_number self.now, told_number self.now) }
    {
        (self.own.number(self.depth), self.told.number(self.depth))
    }

    /// Returns whether the slot of the own place lies in the memory, if slots have `size` bytes.
    pub(crate) fn fits<M: PagedMemory>(&self, mem: &M, size: u16) -> bool
        ensures { IsTrue result
            ↔ (self.now.base + size * self.now.own.slot + size ≤ length (M.bytes mem.now)) }
    {
        let bytes = size_of_memory(mem);
        let end = u64::from(size) * u64::from(self.own.slot) + u64::from(size);
        self.base <= bytes && end <= bytes - self.base
    }

    /// Returns the address of that slot.
    pub(crate) fn address<M: PagedMemory>(&self, mem: &M, size: u16) -> u64
        requires { self.now.base + size * self.now.own.slot + size ≤ length (M.bytes mem.now) }
        ensures { result ≡ self.now.base + size * self.now.own.slot }
    {
        // The sum can't overflow because the slot lies in the memory.
        let _bytes = size_of_memory(mem);
        self.base + u64::from(size) * u64::from(self.own.slot)
    }
}
