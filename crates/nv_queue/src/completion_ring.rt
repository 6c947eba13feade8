//! The two sides of a completion ring.

ghost use Rattle.std.specs.Prelude.{◌≡◌, ◌+◌, ◌*◌, ◌<◌, ◌≤◌, ◌↔◌, IfNone, IfSome, IsErr, IsNone, IsSome};
ghost use Rattle.std.specs.Prelude.{IsTrue, OnErr, OnOk, OnSome, false, length, replicate};
ghost use Rattle.nv_host.specs.Bytes.{with_bytes};
ghost use Rattle.nv_queue.specs.Numbers.{IsDepth, IsSlotBetween, IsWithinRing, phase_of, slot_of};
ghost use Rattle.nv_queue.specs.Rings.{IsCollectRing, IsPostFull, IsPostRing, collected_one, posted_one};
ghost use Rattle.nv_queue.specs.Rings.{renewed_collect, renewed_post, told_all, told_to};
ghost use Rattle.nv_queue.specs.Slots.{CollectsPosted, FindsByTags, HoldsOneMore, HoldsTags};
ghost use Rattle.nv_queue.specs.Slots.{IsAwaitedThere, KeepsTags, awaited_completion, completion_place};
ghost use Rattle.nv_queue.specs.Slots.{with_completion};

use crate::ring::{Ring, is_within_ring};
use nv_host::{PagedMemory, size_of_memory};
use nv_layout::Cqe;
use std::marker::Model;
use thiserror::Error;

/// The completion ring has no free slot. Section "Full Queue".
#[derive(Clone, Copy, Debug, PartialEq, Eq, Error)]
#[error("the completion ring is full")]
pub struct CqFull;

/// The host's side of a completion ring, of 2 to 4,096 slots of 16 bytes. Section "Submission Queue
/// & Completion Queue Definition".
#[derive(Drop)]
pub struct CompletionRing {
    ring: Ring,
    untold: bool,
}

impl Model for CompletionRing {
    ghost use Rattle.std.specs.Prelude.{◌≡◌, false};
    ghost use Rattle.nv_queue.specs.Rings.{CollectNumbers, IsRing, own_number, told_number};

    ghost Value = { CollectNumbers };

    ghost view = { λ r. record {
      base = r.ring.base;
      depth = r.ring.depth;
      collected = own_number r.ring;
      told = told_number r.ring;
      untold = r.untold;
    } };

    ghost invariant = { λ r. IsRing r.ring
        × (r.untold ≡ false → own_number r.ring ≡ told_number r.ring) };
}

impl CompletionRing {
    /// Creates a ring of `depth` slots, from 2 to 4,096, at address `base`. Nothing was collected.
    /// The host must zero the slots with `zero` before the device posts, because only the phase tag
    /// distinguishes a completion from what its slot held before. Each `poll` needs all slots in
    /// the memory.
    pub fn new(base: u64, depth: u16) -> CompletionRing
        requires { IsDepth depth }
        ensures { result
            ≡ record { base = base; depth = depth; collected = 0; told = 0; untold = false } }
    {
        CompletionRing {
            ring: Ring::new(base, depth),
            untold: false,
        }
    }

    /// Begins anew: completion number 0 is awaited, and there is no head to write to the doorbell.
    /// The host must zero the slots, as for a new ring.
    pub fn renew(&mut self)
        ensures { self.new ≡ renewed_collect self.old }
    {
        *self = CompletionRing::new(self.ring.base, self.ring.depth);
    }

    /// Zeroes the slots, all of which must lie in the memory. Then no slot has the phase tag that
    /// is due in a ring that begins anew. Section "Completion Queue Entry".
    #[tactic(auto, using(crate::proofs::ZeroLaws::zeroed_tags))]
    pub fn zero<M: PagedMemory>(&self, mem: &mut M)
        requires { self.now.base + 16 * self.now.depth ≤ length (M.bytes mem.old) }
        ensures bytes { M.bytes mem.new ≡ with_bytes (M.bytes mem.old) self.now.base
            (replicate (16 * self.now.depth) 0) }
        ensures tags { HoldsTags (M.bytes mem.new) self.now.base self.now.depth 0 }
        ensures page { M.page_len mem.new ≡ M.page_len mem.old }
    {
        // The sums can't overflow because the slots lie in the memory.
        let _bytes = size_of_memory(mem);
        for slot in 0..self.ring.depth {
            let addr = self.ring.base + 16 * u64::from(slot);
            let _ = mem.store(addr, &[0; 16]);
        }
    }

    /// Collects the awaited completion, which was posted if and only if its slot has the phase tag
    /// of its number. Section "Completion Queue Entry". All slots must lie in the memory.
    #[tactic(auto, using(crate::proofs::PlaceLaws::places))]
    pub fn poll<M: PagedMemory>(&mut self, mem: &M) -> Option<Cqe>
        requires { self.old.base + 16 * self.old.depth ≤ length (M.bytes mem.now) }
        ensures awaited { IsSome result ↔ IsAwaitedThere (M.bytes mem.now) self.old }
        ensures value { IfSome result (λ c. c ≡ awaited_completion (M.bytes mem.now) self.old) }
        ensures ring { IsCollectRing self.old }
        ensures posted { CollectsPosted (M.bytes mem.now) self.old result }
        ensures tags { FindsByTags (M.bytes mem.now) self.old result }
        ensures collected { OnSome result (self.new ≡ collected_one self.old) }
        ensures none { IfNone result (self.new ≡ self.old) }
    {
        let mut bytes = [0; 16];
        let addr = self.ring.address(mem, 16);
        // The slot lies in the memory.
        let _ = mem.load(addr, &mut bytes);
        let completion = Cqe::get(&bytes);
        let due = !self.ring.own.second;
        if completion.phase != due {
            return None;
        }
        self.ring.own = self.ring.own.step(self.ring.depth);
        self.untold = true;
        Some(completion)
    }

    /// Returns the head to write to the head doorbell, and counts it as written. Returns none if
    /// nothing was collected since the last one. Section "Completion Queue y Head Doorbell".
    #[tactic(auto, using(crate::proofs::PlaceLaws::places))]
    pub fn head_to_tell(&mut self) -> Option<u16>
        ensures none { IsNone result ↔ (self.old.untold ≡ false) }
        ensures all_told { IfNone result (self.old.collected ≡ self.old.told) }
        ensures head { IfSome result (λ h. h ≡ slot_of self.old.depth self.old.collected) }
        ensures told { self.new ≡ told_all self.old }
    {
        if !self.untold {
            return None;
        }
        self.ring.told = self.ring.own;
        self.untold = false;
        Some(self.ring.own.slot)
    }
}

/// The device's side of a completion ring, of 2 to 4,096 slots of 16 bytes, which need not lie in
/// the memory. Section "Submission Queue & Completion Queue Definition".
#[derive(Drop)]
pub struct Post {
    ring: Ring,
}

impl Model for Post {
    ghost use Rattle.nv_queue.specs.Rings.{IsToldBehind, PostNumbers, own_number, told_number};

    ghost Value = { PostNumbers };

    ghost view = { λ r. record {
      base = r.ring.base;
      depth = r.ring.depth;
      posted = own_number r.ring;
      told = told_number r.ring;
    } };

    ghost invariant = { λ r. IsToldBehind r.ring };
}

impl Post {
    /// Creates a ring of `depth` slots, from 2 to 4,096, at address `base`. Nothing was posted.
    #[tactic(auto, using(crate::proofs::NumberLaws::within_new))]
    pub fn new(base: u64, depth: u16) -> Post
        requires { IsDepth depth }
        ensures { result ≡ record { base = base; depth = depth; posted = 0; told = 0 } }
    {
        Post {
            ring: Ring::new(base, depth),
        }
    }

    /// Creates a ring again from its base, depth and numbers, or returns none if no ring has them.
    pub fn of_numbers(base: u64, depth: u16, posted: u16, told: u16) -> Option<Post>
        ensures ring { IsSome result ↔ IsWithinRing depth told posted }
        ensures value { IfSome result
            (λ r. r ≡ record { base = base; depth = depth; posted = posted; told = told }) }
    {
        if !is_within_ring(depth, told, posted) {
            return None;
        }
        Some(Post {
            ring: Ring::of_numbers(base, depth, posted, told),
        })
    }

    /// Returns the numbers of the next completion and of that for which the head doorbell was last
    /// rung, from which `of_numbers` creates the ring again.
    pub fn numbers(&self) -> (u16, u16)
        ensures ring { IsPostRing self.now }
        ensures numbers { result ≡ (self.now.posted, self.now.told) }
    {
        self.ring.numbers()
    }

    /// Begins anew: the next completion is number 0, and every slot is free.
    pub fn renew(&mut self)
        ensures { self.new ≡ renewed_post self.old }
    {
        *self = Post::new(self.ring.base, self.ring.depth);
    }

    /// Performs a write to the head doorbell. A head is ignored unless freeing posted slots leads
    /// to it. Section "Completion Queue y Head Doorbell".
    #[tactic(auto, using(crate::proofs::PlaceLaws::rings, crate::proofs::NumberLaws::ahead_slot))]
    pub fn head(&mut self, value: u32)
        ensures told { IsSlotBetween self.old.depth self.old.told self.old.posted value
            → self.new ≡ told_to self.old value }
        ensures ignored { ¬ IsSlotBetween self.old.depth self.old.told self.old.posted value
            → self.new ≡ self.old }
    {
        if let Ok(slot) = u16::try_from(value)
            && self.ring.told.meets(slot, self.ring.own, self.ring.depth)
        {
            self.ring.told = self.ring.told.reach(slot, self.ring.depth);
        }
    }

    /// Returns the phase tag of the next completion. Section "Completion Queue Entry".
    #[tactic(auto, using(crate::proofs::PlaceLaws::places))]
    pub fn phase(&self) -> bool
        ensures { result ≡ phase_of self.now.depth self.now.posted }
    {
        !self.ring.own.second
    }

    /// Returns whether all slots but one hold completions that are not known to be collected.
    /// Section "Full Queue".
    #[tactic(auto, using(crate::proofs::PlaceLaws::places, crate::proofs::NumberLaws::full_slots))]
    pub fn is_full(&self) -> bool
        ensures ring { IsPostRing self.now }
        ensures full { IsTrue result ↔ IsPostFull self.now }
    {
        self.ring.own.step(self.ring.depth).slot == self.ring.told.slot
    }

    /// Returns whether the slot of the next completion lies in the memory, which `put` requires.
    #[tactic(auto, using(crate::proofs::PlaceLaws::places))]
    pub fn fits<M: PagedMemory>(&self, mem: &M) -> bool
        ensures { IsTrue result
            ↔ (completion_place self.now.base self.now.depth self.now.posted + 16
            ≤ length (M.bytes mem.now)) }
    {
        self.ring.fits(mem, 16)
    }

    /// Returns the address of the next completion's slot, which must lie in the memory, as `fits`
    /// checks.
    #[tactic(auto, using(crate::proofs::PlaceLaws::places))]
    pub fn address<M: PagedMemory>(&self, mem: &M) -> u64
        requires { completion_place self.now.base self.now.depth self.now.posted + 16
            ≤ length (M.bytes mem.now) }
        ensures { result ≡ completion_place self.now.base self.now.depth self.now.posted }
    {
        self.ring.address(mem, 16)
    }

    /// Posts a completion with the phase tag that is due, whatever its own is. Only the bytes of
    /// its slot change, which must lie in the memory, as `fits` checks. If the ring is full,
    /// nothing changes.
    #[tactic(auto, using(crate::proofs::SlotLaws::holds_one_more, crate::proofs::PlaceLaws::rings))]
    pub fn put<M: PagedMemory>(&mut self, mem: &mut M, completion: Cqe) -> Result<(), CqFull>
        requires { completion_place self.old.base self.old.depth self.old.posted + 16
            ≤ length (M.bytes mem.old) }
        ensures full { IsErr result ↔ IsPostFull self.old }
        ensures posted { OnOk result (self.new ≡ posted_one self.old) }
        ensures bytes { OnOk result
            (M.bytes mem.new ≡ with_completion (M.bytes mem.old) self.old completion) }
        ensures stands { OnOk result
            (HoldsOneMore (M.bytes mem.old) (M.bytes mem.new) self.old completion) }
        ensures tags { OnOk result
            (KeepsTags (M.bytes mem.old) (M.bytes mem.new) self.old completion) }
        ensures err { OnErr result (self.new ≡ self.old) }
        ensures err_bytes { OnErr result (M.bytes mem.new ≡ M.bytes mem.old) }
        ensures len { length (M.bytes mem.new) ≡ length (M.bytes mem.old) }
        ensures page { M.page_len mem.new ≡ M.page_len mem.old }
    {
        let next = self.ring.own.step(self.ring.depth);
        if next.slot == self.ring.told.slot {
            return Err(CqFull);
        }
        let posted = Cqe {
            phase: !self.ring.own.second,
            ..completion
        };
        let mut bytes = [0; 16];
        posted.put(&mut bytes);
        let addr = self.ring.address(mem, 16);
        // The slot lies in the memory.
        let _ = mem.store(addr, &bytes);
        self.ring.own = next;
        Ok(())
    }
}
