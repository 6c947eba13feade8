//! What a controller can do with a submission ring and the completion ring for its entries.

ghost use Rattle.std.specs.Prelude.{◌≡◌, if◌then◌else◌, length};
ghost use Rattle.nv_controller.specs.Pairs.{can_complete, can_take, next_entry};
ghost use Rattle.nv_queue.specs.Rings.{fetched_one, posted_one};
ghost use Rattle.nv_queue.specs.Slots.{with_completion};

use nv_host::PagedMemory;
use nv_layout::{Cqe, Sqe};
use nv_queue::{Fetch, Post};

/// Returns whether a completion can be posted: a slot is free, and lies in the memory.
pub(crate) fn can_complete<M: PagedMemory>(post: &Post, mem: &M) -> bool
    ensures { result ≡ can_complete post.now (length (M.bytes mem.now)) }
{
    !post.is_full() && post.fits(mem)
}

/// Returns whether an entry can be taken and completed: it waits, its slot lies in the memory, and
/// a completion can be posted.
pub(crate) fn can_take<M: PagedMemory>(fetch: &Fetch, post: &Post, mem: &M) -> bool
    ensures { result ≡ can_take fetch.now post.now (length (M.bytes mem.now)) }
{
    !fetch.is_empty() && fetch.fits(mem) && can_complete(post, mem)
}

/// Returns the entry that is the next to be taken, if it can be taken and completed. Nothing
/// changes.
pub(crate) fn next_entry<M: PagedMemory>(fetch: &Fetch, post: &Post, mem: &M) -> Option<Sqe>
    ensures { result ≡ next_entry fetch.now post.now (M.bytes mem.now) }
{
    if can_take(fetch, post, mem) {
        Some(fetch.peek(mem))
    } else {
        None
    }
}

/// Takes that entry.
pub(crate) fn take_entry<M: PagedMemory>(fetch: &mut Fetch, post: &Post, mem: &M) -> Option<Sqe>
    ensures entry { result ≡ next_entry fetch.old post.now (M.bytes mem.now) }
    ensures fetch { fetch.new ≡ (if can_take fetch.old post.now (length (M.bytes mem.now))
        then fetched_one fetch.old else fetch.old) }
{
    if can_take(fetch, post, mem) {
        fetch.next(mem)
    } else {
        None
    }
}

/// Posts a completion with the phase tag that is due, if one can be posted. Otherwise nothing
/// changes. Returns whether it was posted.
pub(crate) fn complete<M: PagedMemory>(post: &mut Post, mem: &mut M, completion: Cqe) -> bool
    ensures posted { result ≡ can_complete post.old (length (M.bytes mem.old)) }
    ensures post { post.new ≡ (if can_complete post.old (length (M.bytes mem.old))
        then posted_one post.old else post.old) }
    ensures bytes { M.bytes mem.new ≡ (if can_complete post.old (length (M.bytes mem.old))
        then with_completion (M.bytes mem.old) post.old completion else M.bytes mem.old) }
    ensures len { length (M.bytes mem.new) ≡ length (M.bytes mem.old) }
    ensures page { M.page_len mem.new ≡ M.page_len mem.old }
{
    can_complete(post, mem) && post.put(mem, completion).is_ok()
}
