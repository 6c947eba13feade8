//! Operations on the rings of a queue pair, from both sides.

ghost use Rattle.std.specs.Prelude.{◌+◌, ◌*◌, ◌≤◌, ◌↔◌, IsTrue, length};
ghost use Rattle.nv_queue.specs.Numbers.{IsDepth};

use crate::answer::{Answer, Answered};
use crate::arguments::OperationArguments;
use crate::error::OperationError;
use crate::session::Bench;
use nv_host::{FlatMemory, size_of_memory};
use nv_layout::{Cqe, Sqe};
use nv_queue::{CompletionRing, Fetch, Post, SubmitRing};
use std::marker::Model;

/// Both sides of both rings of a queue pair, with the places of the rings.
#[derive(Drop)]
pub(crate) struct RingPair {
    depth: u16,
    submissions: u64,
    completions: u64,
    submit: SubmitRing,
    fetch: Fetch,
    post: Post,
    collect: CompletionRing,
}

impl Model for RingPair {
    ghost use Rattle.std.specs.Prelude.{◌≡◌};

    ghost Value = { Unit {0} };

    ghost view = { λ _. tt };

    ghost invariant = { λ q. (q.submit.base ≡ q.submissions) × (q.submit.depth ≡ q.depth)
        × (q.collect.base ≡ q.completions) × (q.collect.depth ≡ q.depth) };
}

/// Returns whether `depth` slots of `size` bytes lie in the memory from an address on.
fn lies_in(memory: &FlatMemory, base: u64, size: u16, depth: u16) -> bool
    ensures { IsTrue result ↔ (base + size * depth ≤ length memory.now.bytes) }
{
    let slots = u128::from(size) * u128::from(depth);
    u128::from(base) + slots <= u128::from(size_of_memory(memory))
}

/// Adds the numbers of the device's sides of rings.
pub(crate) fn add_slots(answer: Answer, fetch: &Fetch, post: &Post) -> Answered {
    answer
        .number("sq_head", u64::from(fetch.head()))?
        .number("sq_empty", u64::from(fetch.is_empty()))?
        .number("phase", u64::from(post.phase()))?
        .number("cq_full", u64::from(post.is_full()))
}

impl RingPair {
    /// Creates rings of `depth` slots at these addresses.
    pub(crate) fn new(depth: u16, submissions: u64, completions: u64) -> RingPair
        requires { IsDepth depth }
    {
        RingPair {
            depth,
            submissions,
            completions,
            submit: SubmitRing::new(submissions, depth),
            fetch: Fetch::new(submissions, depth),
            post: Post::new(completions, depth),
            collect: CompletionRing::new(completions, depth),
        }
    }

    fn renew(&mut self) {
        self.submit.renew();
        self.fetch.renew();
        self.post.renew();
        self.collect.renew();
    }

    /// Zeroes the slots of the completions.
    fn zero(&self, memory: &mut FlatMemory) -> Result<(), OperationError> {
        if !lies_in(memory, self.completions, 16, self.depth) {
            return Err(OperationError::RingOutside);
        }
        self.collect.zero(memory);
        Ok(())
    }

    /// Submits an entry, and returns the new tail.
    fn submit(&mut self, memory: &mut FlatMemory, entry: &Sqe) -> Result<u16, OperationError> {
        if !lies_in(memory, self.submissions, 64, self.depth) {
            return Err(OperationError::RingOutside);
        }
        Ok(self.submit.push(memory, entry)?)
    }

    /// Takes the next submission.
    fn take(&mut self, memory: &FlatMemory) -> Result<Sqe, OperationError> {
        if !self.fetch.fits(memory) {
            return Err(OperationError::SlotOutside);
        }
        self.fetch.next(memory).ok_or(OperationError::NoSubmission)
    }

    /// Posts a completion with the due phase tag.
    fn post(&mut self, memory: &mut FlatMemory, completion: Cqe) -> Result<(), OperationError> {
        if !self.post.fits(memory) {
            return Err(OperationError::SlotOutside);
        }
        Ok(self.post.put(memory, completion)?)
    }

    /// Collects the awaited completion.
    fn collect(&mut self, memory: &FlatMemory) -> Result<Cqe, OperationError> {
        if !lies_in(memory, self.completions, 16, self.depth) {
            return Err(OperationError::RingOutside);
        }
        self.collect
            .poll(memory)
            .ok_or(OperationError::NoCompletion)
    }

    /// Frees the slots of the submissions before an SQ head.
    fn free(&mut self, head: u16) -> Result<(), OperationError> {
        if !self.submit.may_free(head) {
            return Err(OperationError::Head);
        }
        self.submit.freed(head);
        Ok(())
    }
}

impl Bench {
    pub(crate) fn rings(&mut self, given: &OperationArguments, answer: Answer) -> Answered {
        let depth = given.word("depth");
        if depth < 2 || depth > 4096 {
            return Err(OperationError::Depth);
        }
        self.rings = RingPair::new(
            depth,
            given.qword("submissions"),
            given.qword("completions"),
        );
        Ok(answer)
    }

    pub(crate) fn renew(&mut self, _: &OperationArguments, answer: Answer) -> Answered {
        self.rings.renew();
        Ok(answer)
    }

    pub(crate) fn zero(&mut self, _: &OperationArguments, answer: Answer) -> Answered {
        self.rings.zero(&mut self.memory)?;
        Ok(answer)
    }

    pub(crate) fn submit(&mut self, given: &OperationArguments, answer: Answer) -> Answered {
        let entry = Sqe::get(&given.array("entry"));
        let tail = self.rings.submit(&mut self.memory, &entry)?;
        answer.number("tail", u64::from(tail))
    }

    pub(crate) fn tail(&mut self, given: &OperationArguments, answer: Answer) -> Answered {
        self.rings.fetch.tail(given.dword("tail"));
        Ok(answer)
    }

    pub(crate) fn take(&mut self, _: &OperationArguments, answer: Answer) -> Answered {
        let mut bytes = [0xff; 64];
        self.rings.take(&self.memory)?.put(&mut bytes);
        answer.bytes("bytes", &bytes)
    }

    pub(crate) fn post(&mut self, given: &OperationArguments, answer: Answer) -> Answered {
        let completion = Cqe::get(&given.array("completion"));
        self.rings.post(&mut self.memory, completion)?;
        Ok(answer)
    }

    pub(crate) fn collect(&mut self, _: &OperationArguments, answer: Answer) -> Answered {
        let mut bytes = [0xff; 16];
        self.rings.collect(&self.memory)?.put(&mut bytes);
        answer.bytes("bytes", &bytes)
    }

    pub(crate) fn free(&mut self, given: &OperationArguments, answer: Answer) -> Answered {
        self.rings.free(given.word("head"))?;
        Ok(answer)
    }

    pub(crate) fn tell(&mut self, _: &OperationArguments, answer: Answer) -> Answered {
        match self.rings.collect.head_to_tell() {
            Some(head) => answer.number("head", u64::from(head)),
            None => Err(OperationError::NoHead),
        }
    }

    pub(crate) fn head(&mut self, given: &OperationArguments, answer: Answer) -> Answered {
        self.rings.post.head(given.dword("head"));
        Ok(answer)
    }

    pub(crate) fn slots(&mut self, _: &OperationArguments, answer: Answer) -> Answered {
        add_slots(answer, &self.rings.fetch, &self.rings.post)
    }
}
