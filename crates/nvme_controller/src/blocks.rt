//! Entries of I/O queues that a program in C keeps: the next one, one that the program completes,
//! and turns over the blocks that it lends.

ghost use Rattle.std.specs.Prelude.{◌≡◌, ◌↔◌, [], IfSome, IsSome, IsTrue, length, negsuc};
ghost use Rattle.nv_host.specs.Pages.{are_pages};
ghost use Rattle.nv_blocks.specs.Turn.{after_answer, after_turn, next_entry, scene, taken_in, taken_with};
ghost use Rattle.nv_blocks.specs.declared.terms.Terms.{Terms};
ghost use Rattle.nvme_controller.specs.Blocks.{AreTerms, CanServe, IsLent, Leaves, answer_result};
ghost use Rattle.nvme_controller.specs.Blocks.{next_bytes};
ghost use Rattle.nvme_controller.specs.Blocks.{next_number, scene_of, status_number, taken_number};
ghost use Rattle.nvme_controller.specs.Queues.{fetch_of, post_of};

use crate::caller::Answer;
use crate::lent::Lent;
use crate::queues::{CompletionQueue, SubmissionQueue};
use nv_blocks::{CommandResult, Namespace, Stop, Taken, Terms, complete, next_entry, turn};
use nv_host::{LentBytes, LentMemory, Loan, are_pages};
use nv_layout::{Sqe, Status};
use nv_queue::{Fetch, Post};
use std::marker::Brand;

/// The greatest transfer of any command, in bytes.
const MOST_BYTES: u64 = 1_048_576;

/// What a program in C says of the blocks that it lends.
#[repr(C)]
#[derive(Clone, Copy)]
pub struct LentBlocks {
    /// The greatest transfer of a command, in bytes.
    pub greatest_transfer: u64,
    /// The NSID of their namespace, or 0 if there are none.
    pub nsid: u32,
    /// How many bytes a block has.
    pub block_size: u32,
    /// Whether no more blocks can be stored, if it isn't 0.
    pub is_full: u32,
}

impl LentBlocks {
    /// Returns the namespace whose blocks they are, if they are those of one.
    fn namespace(&self) -> Option<Namespace>
        ensures { IsLent self.now result }
    {
        if 0 < self.nsid && self.nsid < u32::MAX && 0 < self.block_size {
            Some(Namespace {
                nsid: self.nsid,
                block_size: self.block_size,
            })
        } else {
            None
        }
    }

    /// Returns the terms of a turn of a submission queue.
    pub(crate) fn terms(&self, sqid: u16) -> Terms
        ensures { AreTerms self.now sqid result }
    {
        Terms {
            sqid,
            namespace: self.namespace(),
            limit: self.greatest_transfer.min(MOST_BYTES) as u32,
            is_exhausted: self.is_full != 0,
        }
    }
}

/// Both rings, as a controller has them.
#[derive(Drop)]
struct QueuePair {
    fetch: Fetch,
    post: Post,
}

/// Returns the rings of two queues, if rings can have their numbers and the bytes are whole pages.
fn rings(
    submissions: &SubmissionQueue,
    completions: &CompletionQueue,
    page_size: u32,
    size: usize,
) -> Option<QueuePair>
    ensures can { IsSome result ↔ CanServe submissions.now completions.now page_size size }
    ensures fetch { IfSome result (λ pair. pair.fetch ≡ fetch_of submissions.now) }
    ensures post { IfSome result (λ pair. pair.post ≡ post_of completions.now) }
{
    if !are_pages(page_size, size) {
        return None;
    }
    let fetch = submissions.ring()?;
    let post = completions.ring()?;
    Some(QueuePair { fetch, post })
}

// ---- the next entry

/// Looks at the next entry over these bytes, which it returns.
fn look<'a, L: Loan>(
    pair: &QueuePair,
    memory: &'a mut [u8],
    page_size: u32,
) -> Lent<'a, Result<Sqe, Stop>>
    requires pages { IsTrue (are_pages page_size (length memory.old)) }
    requires loan { memory.ghost_name ≡ L.reference }
    ensures same_reference { result.memory.ghost_name ≡ memory.entry.ghost_name }
    ensures next { result.value ≡ next_entry pair.now.fetch pair.now.post memory.old }
    ensures memory { result.memory.now ≡ memory.old }
{
    let lent: LentMemory<'a, L> = LentMemory::new(memory, page_size);
    let value = next_entry(&pair.fetch, &pair.post, &lent);
    let LentBytes { bytes: memory } = lent.into_bytes();
    Lent { value, memory }
}

/// Copies an entry if there is one, and returns the number for it or for why there is none.
fn show(next: Result<Sqe, Stop>, entry: &mut [u8; 64]) -> i32
    ensures number { result ≡ next_number next }
    ensures entry { entry.new ≡ next_bytes next entry.old }
{
    match next {
        Ok(found) => {
            found.put(entry);
            1
        }
        Err(Stop::Outside) => -1,
        Err(_) => 0,
    }
}

/// Copies the entry that a turn of these queues would take next, and returns 1. Returns 0 if none
/// waits or its completion has no free slot, and -1 if the bytes lack a slot, aren't whole pages, or
/// the numbers of a queue aren't those of one.
#[unsafe(no_mangle)]
pub extern "C" fn nvme_lent_next(
    submissions: &SubmissionQueue,
    completions: &CompletionQueue,
    memory: &mut [u8],
    page_size: u32,
    entry: &mut [u8; 64],
) -> i32
    ensures number { CanServe submissions.now completions.now page_size (length memory.old)
        → result ≡ next_number
        (next_entry (fetch_of submissions.now) (post_of completions.now) memory.old) }
    ensures entry { CanServe submissions.now completions.now page_size (length memory.old)
        → entry.new ≡ next_bytes
        (next_entry (fetch_of submissions.now) (post_of completions.now) memory.old) entry.old }
    ensures cannot { ¬ CanServe submissions.now completions.now page_size (length memory.old)
        → (result ≡ negsuc 0) × (entry.new ≡ entry.old) }
    ensures memory { memory.new ≡ memory.old }
{
    match rings(submissions, completions, page_size, memory.len()) {
        Some(pair) => show(look::<Brand>(&pair, memory, page_size).value, entry),
        None => -1,
    }
}

// ---- turns

/// Completes the next entry over these bytes, which it returns.
fn answer<'a, L: Loan>(
    pair: &mut QueuePair,
    memory: &'a mut [u8],
    page_size: u32,
    sqid: u16,
    command_result: CommandResult,
) -> Lent<'a, Result<Taken, Stop>>
    requires pages { IsTrue (are_pages page_size (length memory.old)) }
    requires loan { memory.ghost_name ≡ L.reference }
    ensures same_reference { result.memory.ghost_name ≡ memory.entry.ghost_name }
    ensures taken { result.value ≡ taken_with sqid page_size command_result []
        (scene pair.old.fetch pair.old.post [] memory.old) }
    ensures scene { scene pair.new.fetch pair.new.post [] result.memory.now ≡ after_answer sqid
        page_size command_result [] (scene pair.old.fetch pair.old.post [] memory.old) }
{
    let mut lent: LentMemory<'a, L> = LentMemory::new(memory, page_size);
    let answer = nv_blocks::Answer {
        command_result,
        data: &[],
    };
    let value = complete(&mut pair.fetch, &mut pair.post, &mut lent, sqid, &answer);
    let LentBytes { bytes: memory } = lent.into_bytes();
    Lent { value, memory }
}

/// Returns 1 for what was taken, or the number for why nothing was.
fn number(taken: Result<Taken, Stop>) -> i32
    ensures { result ≡ taken_number taken }
{
    match taken {
        Ok(_) => 1,
        Err(Stop::Outside) => -1,
        Err(_) => 0,
    }
}

/// Takes the next entry and posts its completion with this answer, without data. Returns what
/// `nvme_lent_next` does.
#[unsafe(no_mangle)]
pub extern "C" fn nvme_lent_complete(
    submissions: &mut SubmissionQueue,
    completions: &mut CompletionQueue,
    memory: &mut [u8],
    page_size: u32,
    given: &Answer,
) -> i32
    ensures number { CanServe submissions.old completions.old page_size (length memory.old)
        → result ≡ taken_number (taken_with submissions.old.sqid page_size (answer_result given.now) []
        (scene_of submissions.old completions.old [] memory.old)) }
    ensures scene { CanServe submissions.old completions.old page_size (length memory.old)
        → Leaves (after_answer submissions.old.sqid page_size (answer_result given.now) []
        (scene_of submissions.old completions.old [] memory.old)) submissions.old completions.old
        [] memory.new submissions.new completions.new }
    ensures cannot { ¬ CanServe submissions.old completions.old page_size (length memory.old)
        → (result ≡ negsuc 0) × (submissions.new ≡ submissions.old)
        × (completions.new ≡ completions.old) × (memory.new ≡ memory.old) }
{
    let Some(mut pair) = rings(submissions, completions, page_size, memory.len()) else {
        return -1;
    };
    let command_result = CommandResult {
        dword0: given.dword0,
        status: Status::from_number(given.status),
    };
    let served = answer::<Brand>(
        &mut pair,
        memory,
        page_size,
        submissions.sqid,
        command_result,
    );
    submissions.keep(&pair.fetch);
    completions.keep(&pair.post);
    number(served.value)
}

/// Gives the queues a turn over these bytes, which it returns.
fn serve<'a, L: Loan>(
    pair: &mut QueuePair,
    memory: &'a mut [u8],
    page_size: u32,
    stored: &mut [u8],
    terms: &Terms,
) -> Lent<'a, Result<Taken, Stop>>
    requires pages { IsTrue (are_pages page_size (length memory.old)) }
    requires loan { memory.ghost_name ≡ L.reference }
    ensures same_reference { result.memory.ghost_name ≡ memory.entry.ghost_name }
    ensures taken { result.value ≡ taken_in terms.now page_size
        (scene pair.old.fetch pair.old.post stored.old memory.old) }
    ensures scene { scene pair.new.fetch pair.new.post stored.new result.memory.now ≡ after_turn
        terms.now page_size (scene pair.old.fetch pair.old.post stored.old memory.old) }
{
    let mut lent: LentMemory<'a, L> = LentMemory::new(memory, page_size);
    let value = turn(&mut pair.fetch, &mut pair.post, &mut lent, stored, terms);
    let LentBytes { bytes: memory } = lent.into_bytes();
    Lent { value, memory }
}

/// Returns the status of what was taken, or -1.
fn status(taken: Result<Taken, Stop>) -> i32
    ensures { result ≡ status_number taken }
{
    match taken {
        Ok(taken) => i32::from(taken.completion.status.number()),
        Err(_) => -1,
    }
}

/// Takes the next entry, performs its command on the blocks that are lent, and posts its
/// completion. Returns the status of the completion, or -1 if no entry was taken.
#[unsafe(no_mangle)]
pub extern "C" fn nvme_lent_turn(
    submissions: &mut SubmissionQueue,
    completions: &mut CompletionQueue,
    memory: &mut [u8],
    page_size: u32,
    stored: &mut [u8],
    lent: &LentBlocks,
) -> i32
    ensures turned { CanServe submissions.old completions.old page_size (length memory.old)
        → (terms : Terms) × AreTerms lent.now submissions.old.sqid terms
        × (result ≡ status_number (taken_in terms page_size
        (scene_of submissions.old completions.old stored.old memory.old)))
        × Leaves (after_turn terms page_size
        (scene_of submissions.old completions.old stored.old memory.old))
        submissions.old completions.old stored.new memory.new submissions.new completions.new }
    ensures cannot { ¬ CanServe submissions.old completions.old page_size (length memory.old)
        → (result ≡ negsuc 0) × (submissions.new ≡ submissions.old)
        × (completions.new ≡ completions.old) × (stored.new ≡ stored.old)
        × (memory.new ≡ memory.old) }
{
    let Some(mut pair) = rings(submissions, completions, page_size, memory.len()) else {
        return -1;
    };
    let terms = lent.terms(submissions.sqid);
    let served = serve::<Brand>(&mut pair, memory, page_size, stored, &terms);
    submissions.keep(&pair.fetch);
    completions.keep(&pair.post);
    status(served.value)
}
