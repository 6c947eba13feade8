//! The ranges of blocks that a Dataset Management command lists. Section "Dataset Management
//! command".

ghost use Rattle.std.specs.Prelude.{◌≡◌, ◌+◌, ◌*◌, ◌/◌, ◌<◌, ◌≤◌, MatchResult, OnErr, length, true};
ghost use Rattle.nv_blocks.specs.Blocks.{zeroed};
ghost use Rattle.nv_blocks.specs.Ranges.{are_within, deallocated, managed, range_at};

use crate::command::{Extent, extent_within, is_within};
use crate::refusal::Refusal;
use byteorder::{ByteOrder, LittleEndian};

/// A range of blocks, as the host lists it.
#[derive(Clone, Copy)]
pub struct BlockRange {
    pub first: u64,
    pub count: u32,
}

/// Returns a range of a list, each of which has 16 bytes.
#[tactic(auto, unfolding(nv_layout::specs::Parts::number_at))]
pub(crate) fn range_at(list: &[u8], index: u16) -> BlockRange
    requires { 16 * index + 16 ≤ length list.now }
    ensures { result ≡ range_at list.now index }
{
    let at = 16 * index as usize;
    BlockRange {
        first: LittleEndian::read_u64(&list[at + 8..]),
        count: LittleEndian::read_u32(&list[at + 4..]),
    }
}

/// Returns whether so many ranges of a list lie within a number of blocks.
#[tactic(auto, using(crate::proofs::RangeLaws::one_outside))]
pub(crate) fn are_within(list: &[u8], ranges: u16, blocks: u64) -> bool
    requires { 16 * ranges ≤ length list.now }
    ensures { result ≡ are_within blocks list.now ranges }
{
    for index in 0..ranges {
        let range = range_at(list, index);
        if !is_within(blocks, range.first, u64::from(range.count)) {
            return false;
        }
    }
    true
}

/// Zeroes the bytes of an extent of the data.
#[tactic(auto, unfolding(nv_host::specs::Bytes::with_bytes))]
pub(crate) fn zero(stored: &mut [u8], extent: Extent)
    requires { extent.start + extent.len ≤ length stored.old }
    ensures { stored.new ≡ zeroed stored.old extent }
{
    stored[extent.start..extent.start + extent.len].fill(0);
}

/// Zeroes the blocks of so many ranges of a list, which lie within the data.
#[tactic(auto, using(crate::proofs::RangeLaws::each_within))]
fn deallocate(stored: &mut [u8], list: &[u8], ranges: u16, block_size: u32)
    requires list { 16 * ranges ≤ length list.now }
    requires blocks { 0 < block_size }
    requires within { are_within (length stored.old / block_size) list.now ranges ≡ true }
    ensures { stored.new ≡ deallocated block_size list.now stored.old ranges }
{
    for index in 0..ranges {
        let range = range_at(list, index);
        let count = u64::from(range.count);
        let extent = extent_within(stored.len(), block_size, range.first, count).unwrap();
        zero(stored, extent);
    }
}

/// Deallocates the blocks of so many ranges of a list, if they all lie within the data. If they are
/// not to be deallocated, they are only checked.
#[tactic(auto, unfolding(crate::specs::Ranges::managed))]
pub(crate) fn manage(
    stored: &mut [u8],
    list: &[u8],
    ranges: u16,
    block_size: u32,
    deallocates: bool,
) -> Result<(), Refusal>
    requires list { 16 * ranges ≤ length list.now }
    requires blocks { 0 < block_size }
    ensures managed { let found = managed ranges block_size deallocates list.now stored.old in
        MatchResult result (λ _. found ≡ Ok stored.new) (λ refusal. found ≡ Err refusal) }
    ensures err { OnErr result (stored.new ≡ stored.old) }
{
    if !are_within(list, ranges, stored.len() as u64 / u64::from(block_size)) {
        return Err(Refusal::LbaOutOfRange);
    }
    if deallocates {
        deallocate(stored, list, ranges, block_size);
    }
    Ok(())
}
