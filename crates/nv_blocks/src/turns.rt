//! Turns of I/O queues: each takes one entry.

ghost use Rattle.std.specs.Prelude.{◌≡◌, ◌+◌, ◌*◌, ◌≢◌, ◌≤◌, [], length};
ghost use Rattle.nv_queue.specs.Rings.{IsPostFull, fetched_one, posted_one};
ghost use Rattle.nv_queue.specs.Slots.{completion_place, submission_place, with_completion};
ghost use Rattle.nv_blocks.specs.Turn.{after_answer, after_turn, answer_of, completion_for, next_entry};
ghost use Rattle.nv_blocks.specs.Turn.{outcome_of, scene, taken_as, taken_in, taken_with};

use crate::answer::{Answer, CommandResult};
use crate::execute::{execute, send};
use crate::terms::Terms;
use nv_host::PagedMemory;
use nv_layout::{Cqe, Sqe, Status};
use nv_queue::{Fetch, Post};

/// Why no entry is taken.
#[derive(Clone, Copy, Debug, PartialEq, Eq)]
pub enum Stop {
    /// The submission queue is empty.
    Empty,
    /// The completion queue has no free slot.
    Full,
    /// The slot of the entry, or that of its completion, doesn't lie in the memory.
    Outside,
}

/// An entry that was taken, and its completion as it was posted.
#[derive(Clone, Copy, Debug, PartialEq, Eq)]
pub struct Taken {
    pub entry: Sqe,
    pub completion: Cqe,
}

/// Returns the entry that the next turn takes, or why it takes none.
#[tactic(auto, using(std::proofs::lemmas::Bool::Decides::nat_tests), unfolding(crate::specs::Turn::next_entry))]
pub fn next_entry<M: PagedMemory>(fetch: &Fetch, post: &Post, mem: &M) -> Result<Sqe, Stop>
    ensures { result ≡ next_entry fetch.now post.now (M.bytes mem.now) }
{
    if fetch.is_empty() {
        return Err(Stop::Empty);
    }
    if post.is_full() {
        return Err(Stop::Full);
    }
    if !fetch.fits(mem) || !post.fits(mem) {
        return Err(Stop::Outside);
    }
    let mut bytes = [0; 64];
    // The slot lies in the memory.
    let _ = mem.load(fetch.address(mem), &mut bytes);
    Ok(Sqe::get(&bytes))
}

/// Does what an entry asks for, and returns what its completion says.
fn perform<M: PagedMemory>(
    mem: &mut M,
    stored: &mut [u8],
    terms: &Terms,
    entry: &Sqe,
) -> CommandResult
    ensures command_result { result
        ≡ (outcome_of terms.now (M.page_len mem.old) stored.old (M.bytes mem.old) entry.now).command_result }
    ensures stored { stored.new
        ≡ (outcome_of terms.now (M.page_len mem.old) stored.old (M.bytes mem.old) entry.now).stored }
    ensures bytes { M.bytes mem.new
        ≡ (outcome_of terms.now (M.page_len mem.old) stored.old (M.bytes mem.old) entry.now).bytes }
    ensures len { length (M.bytes mem.new) ≡ length (M.bytes mem.old) }
    ensures page { M.page_len mem.new ≡ M.page_len mem.old }
{
    match execute(mem, stored, terms, entry) {
        Ok(()) => CommandResult {
            dword0: 0,
            status: Status::SUCCESS,
        },
        Err(refusal) => CommandResult {
            dword0: 0,
            status: refusal.status(),
        },
    }
}

/// Sends the data of an answer, and returns what the completion says.
fn reply<M: PagedMemory>(mem: &mut M, entry: &Sqe, answer: &Answer) -> CommandResult
    ensures command_result { result ≡ (answer_of (M.page_len mem.old) answer.now.command_result answer.now.data.now
        [] (M.bytes mem.old) entry.now).command_result }
    ensures bytes { M.bytes mem.new ≡ (answer_of (M.page_len mem.old) answer.now.command_result answer.now.data.now
        [] (M.bytes mem.old) entry.now).bytes }
    ensures len { length (M.bytes mem.new) ≡ length (M.bytes mem.old) }
    ensures page { M.page_len mem.new ≡ M.page_len mem.old }
{
    match send(mem, entry, answer.data) {
        Ok(()) => answer.command_result,
        Err(refusal) => CommandResult {
            dword0: 0,
            status: refusal.status(),
        },
    }
}

/// Posts the completion of the next entry, which counts as taken.
fn finish<M: PagedMemory>(
    fetch: &mut Fetch,
    post: &mut Post,
    mem: &mut M,
    sqid: u16,
    entry: Sqe,
    command_result: CommandResult,
) -> Taken
    requires waiting { fetch.old.fetched ≢ fetch.old.rung }
    requires free { ¬ IsPostFull post.old }
    requires submission { submission_place fetch.old.base fetch.old.depth fetch.old.fetched + 64
        ≤ length (M.bytes mem.old) }
    requires completion { completion_place post.old.base post.old.depth post.old.posted + 16
        ≤ length (M.bytes mem.old) }
    ensures taken { result ≡ taken_as sqid fetch.old post.old entry command_result }
    ensures fetch { fetch.new ≡ fetched_one fetch.old }
    ensures post { post.new ≡ posted_one post.old }
    ensures bytes { M.bytes mem.new
        ≡ with_completion (M.bytes mem.old) post.old (completion_for sqid fetch.old entry command_result) }
    ensures len { length (M.bytes mem.new) ≡ length (M.bytes mem.old) }
    ensures page { M.page_len mem.new ≡ M.page_len mem.old }
{
    // The entry was read before its data was written.
    let _ = fetch.next(mem);
    let completion = Cqe {
        command_specific: command_result.dword0,
        sq_head: fetch.head(),
        sq_identifier: sqid,
        cid: entry.cid,
        phase: post.phase(),
        status: command_result.status,
    };
    post.put(mem, completion).unwrap();
    Taken { entry, completion }
}

/// Takes the next entry of an I/O queue: does what it asks for, and then posts its completion. If it
/// takes none, nothing changes.
#[tactic(auto, using(crate::proofs::TurnLaws::entry_ready))]
pub fn turn<M: PagedMemory>(
    fetch: &mut Fetch,
    post: &mut Post,
    mem: &mut M,
    stored: &mut [u8],
    terms: &Terms,
) -> Result<Taken, Stop>
    ensures taken { result ≡ taken_in terms.now (M.page_len mem.old)
        (scene fetch.old post.old stored.old (M.bytes mem.old)) }
    ensures scene { scene fetch.new post.new stored.new (M.bytes mem.new) ≡ after_turn terms.now
        (M.page_len mem.old) (scene fetch.old post.old stored.old (M.bytes mem.old)) }
    ensures len { length (M.bytes mem.new) ≡ length (M.bytes mem.old) }
    ensures page { M.page_len mem.new ≡ M.page_len mem.old }
{
    let entry = next_entry(fetch, post, mem)?;
    let command_result = perform(mem, stored, terms, &entry);
    Ok(finish(fetch, post, mem, terms.sqid, entry, command_result))
}

/// Takes the next entry of a queue and answers it as the caller says: sends the data, if there is
/// any, to where the entry's data lies, and then posts the completion. A faulty data pointer is
/// refused. If no entry is taken, nothing changes.
#[tactic(auto, using(crate::proofs::TurnLaws::entry_ready))]
pub fn complete<M: PagedMemory>(
    fetch: &mut Fetch,
    post: &mut Post,
    mem: &mut M,
    sqid: u16,
    answer: &Answer,
) -> Result<Taken, Stop>
    ensures taken { result ≡ taken_with sqid (M.page_len mem.old) answer.now.command_result answer.now.data.now
        (scene fetch.old post.old [] (M.bytes mem.old)) }
    ensures scene { scene fetch.new post.new [] (M.bytes mem.new) ≡ after_answer sqid (M.page_len mem.old)
        answer.now.command_result answer.now.data.now (scene fetch.old post.old [] (M.bytes mem.old)) }
    ensures len { length (M.bytes mem.new) ≡ length (M.bytes mem.old) }
    ensures page { M.page_len mem.new ≡ M.page_len mem.old }
{
    let entry = next_entry(fetch, post, mem)?;
    let command_result = reply(mem, &entry, answer);
    Ok(finish(fetch, post, mem, sqid, entry, command_result))
}
