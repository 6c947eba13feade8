//! What entries zero, for a caller that clears data by other means than zeros, such as holes in a
//! file.

ghost use Rattle.std.specs.Prelude.{◌≡◌, ◌+◌, ◌*◌, ◌/◌, ◌<◌, ◌≤◌, ◌++◌, ◌∷◌, [], Err, MatchResult, Ok, length, true};
ghost use Rattle.nv_blocks.specs.Ranges.{are_within};
ghost use Rattle.nv_blocks.specs.Zeroing.{ZeroingIsExecution, listed, zeroed_at, zeroed_by, zeroing};

use crate::command::{Action, Command, Extent, extent_within};
use crate::execute::find_data;
use crate::ranges::{are_within, range_at};
use crate::refusal::Refusal;
use crate::terms::Terms;
use nv_host::PagedMemory;
use nv_layout::Sqe;
use nv_prp::{Spans, copy_in};
use std::marker::Model;

/// At most 256 extents of a namespace's data.
#[derive(Drop)]
pub struct Extents {
    extents: [Extent; 256],
    count: usize,
}

impl Model for Extents {
    ghost use Rattle.std.specs.Prelude.{◌≤◌, List, take};
    ghost use Rattle.nv_blocks.specs.declared.command.Extent.{Extent};

    ghost Value = { List Extent };

    ghost view = { λ s. take s.count s.extents };

    ghost invariant = { λ s. s.count ≤ 256 };
}

impl Extents {
    /// Creates an empty list.
    pub fn new() -> Extents
        ensures { result ≡ [] }
    {
        Extents {
            extents: [Extent { start: 0, len: 0 }; 256],
            count: 0,
        }
    }

    /// Returns the extents in order.
    pub fn as_slice(&self) -> &[Extent]
        ensures value { result.now ≡ self.now }
        ensures few { length result.now ≤ 256 }
    {
        &self.extents[..self.count]
    }

    /// Removes all extents.
    fn clear(&mut self)
        ensures { self.new ≡ [] }
    {
        self.count = 0;
    }

    fn push(&mut self, extent: Extent)
        requires { length self.old < 256 }
        ensures { self.new ≡ self.old ++ extent ∷ [] }
    {
        self.extents[self.count] = extent;
        self.count += 1;
    }
}

/// Adds the extents of so many ranges of a list, which lie within `size` bytes.
#[tactic(auto, using(crate::proofs::RangeLaws::each_within, crate::proofs::ZeroingLaws::length_listed))]
fn add_ranges(extents: &mut Extents, list: &[u8], ranges: u16, block_size: u32, size: usize)
    requires none { extents.old ≡ [] }
    requires few { ranges ≤ 256 }
    requires list { 16 * ranges ≤ length list.now }
    requires blocks { 0 < block_size }
    requires within { are_within (size / block_size) list.now ranges ≡ true }
    ensures { extents.new ≡ listed block_size list.now ranges }
{
    for index in 0..ranges {
        let range = range_at(list, index);
        let count = u64::from(range.count);
        extents.push(extent_within(size, block_size, range.first, count).unwrap());
    }
}

/// Finds what so many ranges of a list zero, if they all lie within `size` bytes.
#[tactic(auto, unfolding(crate::specs::Zeroing::zeroed_by))]
fn find_ranges(
    extents: &mut Extents,
    list: &[u8],
    ranges: u16,
    block_size: u32,
    deallocates: bool,
    size: usize,
) -> Result<(), Refusal>
    requires none { extents.old ≡ [] }
    requires few { ranges ≤ 256 }
    requires list { 16 * ranges ≤ length list.now }
    requires blocks { 0 < block_size }
    ensures { let found = zeroed_by size ranges block_size deallocates list.now in
        MatchResult result (λ _. found ≡ Ok extents.new) (λ refusal. found ≡ Err refusal) }
{
    if !are_within(list, ranges, size as u64 / u64::from(block_size)) {
        return Err(Refusal::LbaOutOfRange);
    }
    if deallocates {
        add_ranges(extents, list, ranges, block_size, size);
    }
    Ok(())
}

/// Finds what an action zeroes of the blocks in an extent.
fn find_extent(extents: &mut Extents, action: Action, extent: Extent)
    requires { extents.old ≡ [] }
    ensures { extents.new ≡ zeroed_at action extent }
{
    if let Action::WriteZeroes = action {
        extents.push(extent);
    }
}

/// Finds what an entry zeroes in data of `size` bytes: the blocks of Write Zeroes, and those that
/// Dataset Management deallocates. A caller that zeroes them, and answers the entry by `complete`
/// with a success, has done what `turn` does, as `zeroing_is_execution` states.
#[tactic(auto, unfolding(crate::specs::Zeroing::zeroing))]
pub fn find_zeroed<M: PagedMemory>(
    mem: &M,
    entry: &Sqe,
    terms: &Terms,
    size: usize,
    extents: &mut Extents,
) -> Result<(), Refusal>
    ensures { let found = zeroing terms.now (M.page_len mem.now) size (M.bytes mem.now) entry.now in
        MatchResult result (λ _. found ≡ Ok extents.new) (λ refusal. found ≡ Err refusal) }
{
    extents.clear();
    let command = Command::of(entry, terms, size)?;
    let mut spans = Spans::new();
    find_data(mem, entry, command.length(), &mut spans)?;
    match command {
        Command::Flush => Ok(()),
        Command::OnBlocks { action, extent } => {
            find_extent(extents, action, extent);
            Ok(())
        }
        Command::DatasetManagement {
            ranges,
            block_size,
            deallocates,
        } => {
            let mut room = [0; 4096];
            let list = &mut room[..16 * ranges as usize];
            copy_in(mem, &spans, list);
            find_ranges(extents, list, ranges, block_size, deallocates, size)
        }
    }
}

/// States a law: what Write Zeroes and Dataset Management do is to zero what `find_zeroed` finds, and
/// what refuses them is the same. The call does nothing.
pub fn zeroing_is_execution()
    ensures { ZeroingIsExecution }
{}
