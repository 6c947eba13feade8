//! Tests for the conditions of the calls that operations make.

ghost use Rattle.std.specs.Prelude.{◌≡◌, ◌≢◌, ◌+◌, ◌*◌, ◌%◌, ◌<◌, ◌≤◌, ◌↔◌, ◌∷◌, All, IsTrue, length};
ghost use Rattle.nv_host.specs.Pages.{HasPage};
ghost use Rattle.nv_prp.specs.Place.{AreDistinct, LieIn, places};
ghost use Rattle.nv_prp.specs.Transfer.{most_bytes};

use nv_host::{PageNo, PagedMemory, size_of_memory};
use nv_prp::{Span, Spans};

/// Returns whether a transfer may have this many bytes.
pub(crate) fn is_length(len: u32) -> bool
    ensures { IsTrue result ↔ ((0 < len) × (len ≤ most_bytes)) }
{
    0 < len && len <= 1_048_576
}

/// Returns whether the memory has this page.
pub(crate) fn has_page<M: PagedMemory>(memory: &M, number: PageNo) -> bool
    ensures { IsTrue result ↔ HasPage (M.bytes memory.now) (M.page_len memory.now) number }
{
    (u64::from(number) + 1) * u64::from(memory.page_size()) <= size_of_memory(memory)
}

/// Returns whether the memory has all of these pages.
pub(crate) fn has_pages<M: PagedMemory>(memory: &M, pages: &[PageNo]) -> bool
    ensures { IsTrue result
        ↔ All (λ page. HasPage (M.bytes memory.now) (M.page_len memory.now) page) pages.now }
{
    pages.iter().all(|page| has_page(memory, *page))
}

/// Returns whether an offset is below the page size and a multiple of `alignment`.
pub(crate) fn is_offset(offset: u32, page_size: u32, alignment: u32) -> bool
    requires { 0 < alignment }
    ensures { IsTrue result ↔ ((offset < page_size) × (offset % alignment ≡ 0)) }
{
    offset < page_size && offset % alignment == 0
}

/// Returns whether the pages hold `len` bytes from an offset on.
pub(crate) fn holds_all(pages: &[PageNo], page_size: u32, offset: u32, len: u32) -> bool
    ensures { IsTrue result ↔ (offset + len ≤ length pages.now * page_size) }
{
    u128::from(offset) + u128::from(len) <= pages.len() as u128 * u128::from(page_size)
}

/// Returns whether none of the pages is this one.
fn is_apart(page: PageNo, pages: &[PageNo]) -> bool
    ensures { IsTrue result ↔ All (λ other. page ≢ other) pages.now }
{
    pages.iter().all(|other| page != *other)
}

/// Returns whether no two pages are the same.
#[tactic(auto, using(crate::proofs::TransferLaws::one_again, crate::proofs::TransferLaws::one_more_apart))]
pub(crate) fn are_distinct(pages: &[PageNo]) -> bool
    ensures { IsTrue result ↔ AreDistinct pages.now }
{
    for index in 0..pages.len() {
        if !is_apart(pages[index], &pages[index + 1..]) {
            return false;
        }
    }
    true
}

/// Returns whether all spans lie in a memory of this size.
#[tactic(auto, unfolding(nv_prp::specs::Place::LieIn))]
pub(crate) fn lie_in(spans: &[Span], size: u64) -> bool
    ensures { IsTrue result ↔ LieIn size spans.now }
{
    spans.iter().all(|span| u128::from(span.address) + u128::from(span.len) <= u128::from(size))
}

/// Returns how many bytes the spans have together.
#[tactic(auto, using(crate::proofs::TransferLaws::one_more_span), unfolding(nv_prp::specs::Place::places))]
pub(crate) fn bytes_in(spans: &Spans) -> u64
    ensures { result ≡ length (places spans.now) }
{
    let mut count = 0;
    for span in spans.as_slice() {
        count += u64::from(span.len);
    }
    count
}
