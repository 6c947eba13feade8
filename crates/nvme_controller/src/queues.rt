//! I/O queues as values that a program in C keeps.

ghost use Rattle.std.specs.Prelude.{◌≡◌, ◌<◌, ◌≤◌, ◌↔◌, IfSome, IsSome, IsTrue, pos};
ghost use Rattle.nv_queue.specs.Numbers.{IsDepth, IsSlotBetween, distance};
ghost use Rattle.nv_queue.specs.Rings.{IsFetchRing, IsPostRing, rung_to, told_to};
ghost use Rattle.nvme_controller.specs.Queues.{fetch_of, post_of, with_fetch, with_post};

use nv_queue::{Fetch, Post};

/// A submission queue as its controller has it. Entries are counted from 0, modulo twice the depth.
#[repr(C)]
#[derive(Clone, Copy)]
pub struct SubmissionQueue {
    /// The address of its first slot.
    pub base: u64,
    /// How many slots it has.
    pub depth: u16,
    /// Its identifier.
    pub sqid: u16,
    /// The number of the next entry to take.
    pub fetched: u16,
    /// The number up to which entries wait, which the tail doorbell set.
    pub rung: u16,
}

/// A completion queue as its controller has it. Completions are counted from 0, modulo twice the
/// depth.
#[repr(C)]
#[derive(Clone, Copy)]
pub struct CompletionQueue {
    /// The address of its first slot.
    pub base: u64,
    /// How many slots it has.
    pub depth: u16,
    /// The number of the next completion.
    pub posted: u16,
    /// The number below which completions were collected, which the head doorbell set.
    pub told: u16,
    /// Not used.
    pub reserved: u16,
}

impl SubmissionQueue {
    /// Returns the controller's side of the ring, if a ring can have these numbers.
    pub(crate) fn ring(&self) -> Option<Fetch>
        ensures ring { IsSome result ↔ IsFetchRing (fetch_of self.now) }
        ensures value { IfSome result (λ ring. ring ≡ fetch_of self.now) }
    {
        Fetch::of_numbers(self.base, self.depth, self.fetched, self.rung)
    }

    /// Keeps the numbers of the ring, as they are now.
    pub(crate) fn keep(&mut self, ring: &Fetch)
        ensures { self.new ≡ with_fetch self.old ring.now }
    {
        let (fetched, rung) = ring.numbers();
        self.fetched = fetched;
        self.rung = rung;
    }
}

impl CompletionQueue {
    /// Returns the controller's side of the ring, if a ring can have these numbers.
    pub(crate) fn ring(&self) -> Option<Post>
        ensures ring { IsSome result ↔ IsPostRing (post_of self.now) }
        ensures value { IfSome result (λ ring. ring ≡ post_of self.now) }
    {
        Post::of_numbers(self.base, self.depth, self.posted, self.told)
    }

    /// Keeps the numbers of the ring, as they are now.
    pub(crate) fn keep(&mut self, ring: &Post)
        ensures { self.new ≡ with_post self.old ring.now }
    {
        let (posted, told) = ring.numbers();
        self.posted = posted;
        self.told = told;
    }
}

/// Makes an empty submission queue. Returns 1, or 0 if a queue can't have this depth, and then
/// leaves it unchanged.
#[unsafe(no_mangle)]
pub extern "C" fn nvme_submission_queue_make(
    queue: &mut SubmissionQueue,
    sqid: u16,
    base: u64,
    depth: u32,
) -> i32
    ensures made { IsDepth depth → (result ≡ pos 1) × (queue.new
        ≡ record { base = base; depth = depth; sqid = sqid; fetched = 0; rung = 0 }) }
    ensures refused { ¬ IsDepth depth → (result ≡ pos 0) × (queue.new ≡ queue.old) }
{
    if depth < 2 || depth > 4096 {
        return 0;
    }
    *queue = SubmissionQueue {
        base,
        depth: depth as u16,
        sqid,
        fetched: 0,
        rung: 0,
    };
    1
}

/// Makes an empty completion queue. Returns 1, or 0 if a queue can't have this depth, and then
/// leaves it unchanged.
#[unsafe(no_mangle)]
pub extern "C" fn nvme_completion_queue_make(
    queue: &mut CompletionQueue,
    base: u64,
    depth: u32,
) -> i32
    ensures made { IsDepth depth → (result ≡ pos 1) × (queue.new
        ≡ record { base = base; depth = depth; posted = 0; told = 0; reserved = 0 }) }
    ensures refused { ¬ IsDepth depth → (result ≡ pos 0) × (queue.new ≡ queue.old) }
{
    if depth < 2 || depth > 4096 {
        return 0;
    }
    *queue = CompletionQueue {
        base,
        depth: depth as u16,
        posted: 0,
        told: 0,
        reserved: 0,
    };
    1
}

/// Performs a write of the tail doorbell, and returns 1. A tail that names no slot, and numbers that
/// no queue has, are ignored, and 0 is returned.
#[unsafe(no_mangle)]
pub extern "C" fn nvme_submission_queue_tail(queue: &mut SubmissionQueue, tail: u32) -> i32
    ensures rung { IsFetchRing (fetch_of queue.old) → tail < queue.old.depth → (result ≡ pos 1)
        × (queue.new ≡ with_fetch queue.old (rung_to (fetch_of queue.old) tail)) }
    ensures ignored { queue.old.depth ≤ tail → (result ≡ pos 0) × (queue.new ≡ queue.old) }
    ensures no_queue { ¬ IsFetchRing (fetch_of queue.old)
        → (result ≡ pos 0) × (queue.new ≡ queue.old) }
{
    let Some(mut ring) = queue.ring() else {
        return 0;
    };
    if tail >= u32::from(queue.depth) {
        return 0;
    }
    ring.tail(tail);
    queue.keep(&ring);
    1
}

/// Returns whether freeing posted slots leads to a head, so that the head doorbell isn't ignored.
#[tactic(auto, unfolding(nv_queue::specs::Numbers::ahead, nv_queue::specs::Numbers::distance))]
fn is_between(queue: &CompletionQueue, head: u32) -> bool
    requires { IsPostRing (post_of queue.now) }
    ensures { IsTrue result ↔ IsSlotBetween queue.now.depth queue.now.told queue.now.posted head }
{
    let depth = u32::from(queue.depth);
    let told = u32::from(queue.told);
    let posted = u32::from(queue.posted);
    head < depth && (head + 2 * depth - told) % depth <= (posted + 2 * depth - told) % (2 * depth)
}

/// Performs a write of the head doorbell, and returns 1. A head to which freeing posted slots
/// doesn't lead, and numbers that no queue has, are ignored, and 0 is returned.
#[unsafe(no_mangle)]
pub extern "C" fn nvme_completion_queue_head(queue: &mut CompletionQueue, head: u32) -> i32
    ensures told { IsPostRing (post_of queue.old)
        → IsSlotBetween queue.old.depth queue.old.told queue.old.posted head → (result ≡ pos 1)
        × (queue.new ≡ with_post queue.old (told_to (post_of queue.old) head)) }
    ensures ignored { ¬ IsSlotBetween queue.old.depth queue.old.told queue.old.posted head
        → (result ≡ pos 0) × (queue.new ≡ queue.old) }
    ensures no_queue { ¬ IsPostRing (post_of queue.old)
        → (result ≡ pos 0) × (queue.new ≡ queue.old) }
{
    let Some(mut ring) = queue.ring() else {
        return 0;
    };
    if !is_between(queue, head) {
        return 0;
    }
    ring.head(head);
    queue.keep(&ring);
    1
}

/// Returns how many entries wait to be taken, or 0 for numbers that no queue has.
#[tactic(auto, unfolding(nv_queue::specs::Numbers::distance))]
#[unsafe(no_mangle)]
pub extern "C" fn nvme_submission_queue_waiting(queue: &SubmissionQueue) -> u16
    ensures waiting { IsFetchRing (fetch_of queue.now)
        → result ≡ distance queue.now.depth queue.now.rung queue.now.fetched }
    ensures no_queue { ¬ IsFetchRing (fetch_of queue.now) → result ≡ 0 }
{
    if queue.ring().is_none() {
        return 0;
    }
    (queue.rung + 2 * queue.depth - queue.fetched) % (2 * queue.depth)
}

/// Returns how many completions wait to be collected, or 0 for numbers that no queue has.
#[tactic(auto, unfolding(nv_queue::specs::Numbers::distance))]
#[unsafe(no_mangle)]
pub extern "C" fn nvme_completion_queue_waiting(queue: &CompletionQueue) -> u16
    ensures waiting { IsPostRing (post_of queue.now)
        → result ≡ distance queue.now.depth queue.now.posted queue.now.told }
    ensures no_queue { ¬ IsPostRing (post_of queue.now) → result ≡ 0 }
{
    if queue.ring().is_none() {
        return 0;
    }
    (queue.posted + 2 * queue.depth - queue.told) % (2 * queue.depth)
}
