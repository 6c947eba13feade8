//! The two sides of a submission ring.

ghost use Rattle.std.specs.Prelude.{◌≡◌, ◌+◌, ◌*◌, ◌<◌, ◌≤◌, ◌↔◌, IfNone, IfOk, IfSome, IsErr, IsNone, IsSome};
ghost use Rattle.std.specs.Prelude.{IsTrue, OnErr, OnOk, OnSome, length};
ghost use Rattle.nv_queue.specs.Numbers.{IsDepth, IsSlotBetween, IsWithinRing, next, slot_of};
ghost use Rattle.nv_queue.specs.Rings.{IsFetchRing, IsSubmitFull, IsSubmitRing, fetched_one, known_to};
ghost use Rattle.nv_queue.specs.Rings.{renewed_fetch, renewed_submit, rung_to, submitted_one};
ghost use Rattle.nv_queue.specs.Slots.{next_submission, submission_place, with_submission};

use crate::ring::{Ring, is_within_ring};
use nv_host::PagedMemory;
use nv_layout::Sqe;
use std::marker::Model;
use thiserror::Error;

/// The submission ring has no free slot. Section "Full Queue".
#[derive(Clone, Copy, Debug, PartialEq, Eq, Error)]
#[error("the submission ring is full")]
pub struct RingFull;

/// The host's side of a submission ring, of 2 to 4,096 slots of 64 bytes. Section "Submission Queue
/// & Completion Queue Definition".
#[derive(Drop)]
pub struct SubmitRing {
    ring: Ring,
}

impl Model for SubmitRing {
    ghost use Rattle.nv_queue.specs.Rings.{IsToldBehind, SubmitNumbers, own_number, told_number};

    ghost Value = { SubmitNumbers };

    ghost view = { λ r. record {
      base = r.ring.base;
      depth = r.ring.depth;
      submitted = own_number r.ring;
      known = told_number r.ring;
    } };

    ghost invariant = { λ r. IsToldBehind r.ring };
}

impl SubmitRing {
    /// Creates a ring of `depth` slots, from 2 to 4,096, at address `base`. Nothing was submitted.
    /// Each `push` needs all slots in the memory. The slots may hold any bytes before.
    #[tactic(auto, using(crate::proofs::NumberLaws::within_new))]
    pub fn new(base: u64, depth: u16) -> SubmitRing
        requires { IsDepth depth }
        ensures { result ≡ record { base = base; depth = depth; submitted = 0; known = 0 } }
    {
        SubmitRing {
            ring: Ring::new(base, depth),
        }
    }

    /// Begins anew: the next submission is number 0, and none is outstanding.
    pub fn renew(&mut self)
        ensures { self.new ≡ renewed_submit self.old }
    {
        *self = SubmitRing::new(self.ring.base, self.ring.depth);
    }

    /// Submits a command, and returns the new tail, for the tail doorbell. The ring is full if all
    /// slots but one hold commands that are not known to be taken. Then nothing changes. All slots
    /// must lie in the memory.
    #[tactic(auto, using(crate::proofs::PlaceLaws::rings))]
    pub fn push<M: PagedMemory>(&mut self, mem: &mut M, command: &Sqe) -> Result<u16, RingFull>
        requires { self.old.base + 64 * self.old.depth ≤ length (M.bytes mem.old) }
        ensures full { IsErr result ↔ IsSubmitFull self.old }
        ensures submitted { OnOk result (self.new ≡ submitted_one self.old) }
        ensures tail { IfOk result
            (λ t. t ≡ slot_of self.old.depth (next self.old.depth self.old.submitted)) }
        ensures bytes { OnOk result
            (M.bytes mem.new ≡ with_submission (M.bytes mem.old) self.old command.now) }
        ensures err { OnErr result (self.new ≡ self.old) }
        ensures err_bytes { OnErr result (M.bytes mem.new ≡ M.bytes mem.old) }
        ensures len { length (M.bytes mem.new) ≡ length (M.bytes mem.old) }
        ensures page { M.page_len mem.new ≡ M.page_len mem.old }
    {
        let next = self.ring.own.step(self.ring.depth);
        if next.slot == self.ring.told.slot {
            return Err(RingFull);
        }
        let mut bytes = [0; 64];
        command.put(&mut bytes);
        let addr = self.ring.address(mem, 64);
        // The slot lies in the memory.
        let _ = mem.store(addr, &bytes);
        self.ring.own = next;
        Ok(next.slot)
    }

    /// Returns whether a head lies between the known head and the tail, as the SQ head of each
    /// completion does. `freed` requires it.
    #[tactic(auto, using(crate::proofs::PlaceLaws::places, crate::proofs::NumberLaws::ahead_slot))]
    pub fn may_free(&self, head: u16) -> bool
        ensures ring { IsSubmitRing self.now }
        ensures between { IsTrue result
            ↔ IsSlotBetween self.now.depth self.now.known self.now.submitted head }
    {
        self.ring.told.meets(head, self.ring.own, self.ring.depth)
    }

    /// Performs the SQ head of a collected completion: the submissions before it were taken.
    /// `may_free` must hold for it.
    #[tactic(auto, using(crate::proofs::PlaceLaws::rings))]
    pub fn freed(&mut self, head: u16)
        requires { IsSlotBetween self.old.depth self.old.known self.old.submitted head }
        ensures { self.new ≡ known_to self.old head }
    {
        self.ring.told = self.ring.told.reach(head, self.ring.depth);
    }
}

/// The device's side of a submission ring, of 2 to 4,096 slots of 64 bytes, which need not lie in
/// the memory. Section "Submission Queue & Completion Queue Definition".
#[derive(Drop)]
pub struct Fetch {
    ring: Ring,
}

impl Model for Fetch {
    ghost use Rattle.nv_queue.specs.Rings.{FetchNumbers, IsToldAhead, own_number, told_number};

    ghost Value = { FetchNumbers };

    ghost view = { λ r. record {
      base = r.ring.base;
      depth = r.ring.depth;
      fetched = own_number r.ring;
      rung = told_number r.ring;
    } };

    ghost invariant = { λ r. IsToldAhead r.ring };
}

impl Fetch {
    /// Creates an empty ring of `depth` slots, from 2 to 4,096, at address `base`.
    #[tactic(auto, using(crate::proofs::NumberLaws::within_new))]
    pub fn new(base: u64, depth: u16) -> Fetch
        requires { IsDepth depth }
        ensures { result ≡ record { base = base; depth = depth; fetched = 0; rung = 0 } }
    {
        Fetch {
            ring: Ring::new(base, depth),
        }
    }

    /// Creates a ring again from its base, depth and numbers, or returns none if no ring has them.
    pub fn of_numbers(base: u64, depth: u16, fetched: u16, rung: u16) -> Option<Fetch>
        ensures ring { IsSome result ↔ IsWithinRing depth fetched rung }
        ensures value { IfSome result
            (λ r. r ≡ record { base = base; depth = depth; fetched = fetched; rung = rung }) }
    {
        if !is_within_ring(depth, fetched, rung) {
            return None;
        }
        Some(Fetch {
            ring: Ring::of_numbers(base, depth, fetched, rung),
        })
    }

    /// Returns the numbers of the next submission to take and of that up to which the tail doorbell
    /// was last rung, from which `of_numbers` creates the ring again.
    pub fn numbers(&self) -> (u16, u16)
        ensures ring { IsFetchRing self.now }
        ensures numbers { result ≡ (self.now.fetched, self.now.rung) }
    {
        self.ring.numbers()
    }

    /// Begins anew: the ring is empty, and the next submission is number 0.
    pub fn renew(&mut self)
        ensures { self.new ≡ renewed_fetch self.old }
    {
        *self = Fetch::new(self.ring.base, self.ring.depth);
    }

    /// Performs a write to the tail doorbell. A tail that names no slot is ignored. Section
    /// "Submission Queue y Tail Doorbell".
    #[tactic(auto, using(crate::proofs::PlaceLaws::rings))]
    pub fn tail(&mut self, value: u32)
        ensures rung { value < self.old.depth → self.new ≡ rung_to self.old value }
        ensures ignored { self.old.depth ≤ value → self.new ≡ self.old }
    {
        if value < u32::from(self.ring.depth) {
            self.ring.told = self.ring.own.reach(value as u16, self.ring.depth);
        }
    }

    /// Returns the slot of the next submission, which is the SQ head to post.
    #[tactic(auto, using(crate::proofs::PlaceLaws::places))]
    pub fn head(&self) -> u16
        ensures { result ≡ slot_of self.now.depth self.now.fetched }
    {
        self.ring.own.slot
    }

    /// Returns whether the ring is empty. Section "Empty Queue".
    #[tactic(auto, using(crate::proofs::PlaceLaws::places, crate::proofs::NumberLaws::empty_slots))]
    pub fn is_empty(&self) -> bool
        ensures ring { IsFetchRing self.now }
        ensures empty { IsTrue result ↔ (self.now.fetched ≡ self.now.rung) }
    {
        self.ring.told.slot == self.ring.own.slot
    }

    /// Returns whether the slot of the next submission lies in the memory, which `next` requires.
    #[tactic(auto, using(crate::proofs::PlaceLaws::places))]
    pub fn fits<M: PagedMemory>(&self, mem: &M) -> bool
        ensures { IsTrue result
            ↔ (submission_place self.now.base self.now.depth self.now.fetched + 64
            ≤ length (M.bytes mem.now)) }
    {
        self.ring.fits(mem, 64)
    }

    /// Returns the address of the next submission's slot, which must lie in the memory, as `fits`
    /// checks.
    #[tactic(auto, using(crate::proofs::PlaceLaws::places))]
    pub fn address<M: PagedMemory>(&self, mem: &M) -> u64
        requires { submission_place self.now.base self.now.depth self.now.fetched + 64
            ≤ length (M.bytes mem.now) }
        ensures { result ≡ submission_place self.now.base self.now.depth self.now.fetched }
    {
        self.ring.address(mem, 64)
    }

    /// Returns what the slot of the next submission holds, which must lie in the memory, as `fits`
    /// checks.
    #[tactic(auto, using(crate::proofs::PlaceLaws::places))]
    pub fn peek<M: PagedMemory>(&self, mem: &M) -> Sqe
        requires { submission_place self.now.base self.now.depth self.now.fetched + 64
            ≤ length (M.bytes mem.now) }
        ensures { result ≡ next_submission (M.bytes mem.now) self.now }
    {
        let mut bytes = [0; 64];
        let addr = self.ring.address(mem, 64);
        // The slot lies in the memory.
        let _ = mem.load(addr, &mut bytes);
        Sqe::get(&bytes)
    }

    /// Takes the next submission, or returns none if the ring is empty. The slot must lie in the
    /// memory, as `fits` checks.
    #[tactic(auto, using(crate::proofs::PlaceLaws::rings))]
    pub fn next<M: PagedMemory>(&mut self, mem: &M) -> Option<Sqe>
        requires { submission_place self.old.base self.old.depth self.old.fetched + 64
            ≤ length (M.bytes mem.now) }
        ensures empty { IsNone result ↔ (self.old.fetched ≡ self.old.rung) }
        ensures value { IfSome result (λ s. s ≡ next_submission (M.bytes mem.now) self.old) }
        ensures fetched { OnSome result (self.new ≡ fetched_one self.old) }
        ensures none { IfNone result (self.new ≡ self.old) }
    {
        if self.is_empty() {
            return None;
        }
        let submission = self.peek(mem);
        self.ring.own = self.ring.own.step(self.ring.depth);
        Some(submission)
    }
}
