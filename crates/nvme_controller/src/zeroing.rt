//! What an entry of an I/O queue zeroes, for a program in C that clears blocks by other means, such
//! as holes in a file.

ghost use Rattle.std.specs.Prelude.{◌≡◌, ◌≤◌, IsTrue, MatchBool, Ok, false, length, negsuc, pos};
ghost use Rattle.nv_host.specs.Pages.{are_pages};
ghost use Rattle.nv_layout.specs.Sqe.{sqe_of_bytes};
ghost use Rattle.nv_blocks.specs.Zeroing.{zeroing};
ghost use Rattle.nv_blocks.specs.declared.terms.Terms.{Terms};
ghost use Rattle.nvme_controller.specs.Blocks.{AreTerms};
ghost use Rattle.nvme_controller.specs.Zeroing.{HoldsRanges, ListsRanges};
ghost use Rattle.nvme_controller.specs.inner.Zeroing.{is_accepted};

use crate::blocks::LentBlocks;
use crate::lent::Lent;
use nv_blocks::{Extent, Extents, Terms, find_zeroed};
use nv_host::{LentBytes, LentMemory, Loan, are_pages};
use nv_layout::Sqe;
use std::marker::Brand;

/// A range of bytes of the blocks, as a program in C gets it.
#[repr(C)]
#[derive(Clone, Copy)]
pub struct ByteRange {
    pub offset: u64,
    pub length: u64,
}

/// Finds what an entry zeroes in blocks of so many bytes, over this memory, which it returns.
fn find<'a, L: Loan>(
    entry: &Sqe,
    memory: &'a mut [u8],
    page_size: u32,
    terms: &Terms,
    size: usize,
    extents: &mut Extents,
) -> Lent<'a, bool>
    requires pages { IsTrue (are_pages page_size (length memory.old)) }
    requires loan { memory.ghost_name ≡ L.reference }
    ensures same_reference { result.memory.ghost_name ≡ memory.entry.ghost_name }
    ensures memory { result.memory.now ≡ memory.old }
    ensures found { let found = zeroing terms.now page_size size memory.old entry.now in
        MatchBool result.value (found ≡ Ok extents.new) (is_accepted found ≡ false) }
{
    let lent: LentMemory<'a, L> = LentMemory::new(memory, page_size);
    let value = find_zeroed(&lent, entry, terms, size, extents).is_ok();
    let LentBytes { bytes: memory } = lent.into_bytes();
    Lent { value, memory }
}

/// Copies extents to the first ranges, and returns how many they are.
fn put_ranges(extents: &[Extent], ranges: &mut [ByteRange]) -> i32
    requires few { length extents.now ≤ 256 }
    requires room { length extents.now ≤ length ranges.old }
    ensures count { result ≡ pos (length extents.now) }
    ensures ranges { HoldsRanges extents.now ranges.new }
{
    for (i, extent) in extents.iter().enumerate() {
        ranges[i] = ByteRange {
            offset: extent.start as u64,
            length: extent.len as u64,
        };
    }
    extents.len() as i32
}

/// Copies the ranges of bytes that an entry zeroes in blocks of `size` bytes, of which there may be
/// none, and returns how many they are, or -1 if the entry is refused or the memory can't be lent.
#[unsafe(no_mangle)]
pub extern "C" fn nvme_lent_zeroing(
    entry: &[u8; 64],
    memory: &mut [u8],
    page_size: u32,
    lent: &LentBlocks,
    size: usize,
    ranges: &mut [ByteRange; 256],
) -> i32
    ensures zeroing { IsTrue (are_pages page_size (length memory.old))
        → (terms : Terms) × AreTerms lent.now 0 terms × ListsRanges
        (zeroing terms page_size size memory.old (sqe_of_bytes entry.now)) result ranges.new }
    ensures cannot { are_pages page_size (length memory.old) ≡ false → result ≡ negsuc 0 }
    ensures memory { memory.new ≡ memory.old }
{
    if !are_pages(page_size, memory.len()) {
        return -1;
    }
    let terms = lent.terms(0);
    let (entry, mut extents) = (Sqe::get(entry), Extents::new());
    if !find::<Brand>(&entry, memory, page_size, &terms, size, &mut extents).value {
        return -1;
    }
    put_ranges(extents.as_slice(), ranges)
}
