//! Sets of page numbers.

ghost use Rattle.std.specs.Prelude.{◌≡◌, ◌+◌, ◌<◌, ◌^◌, false, IfOk, IfSome, MatchOption};
ghost use Rattle.std.specs.FinMap as map;
ghost use Rattle.nv_host.specs.PageSets.{IsLowest, IsOf, all_of, insert};

use crate::Memory;
use nv_bits::BitSet;
use std::alloc::Global;
use std::marker::Model;

/// The number of a page of the host's memory.
pub type PageNo = u32;

/// A set of page numbers from a range of consecutive ones. Its memory is allocated once, for all of
/// them.
#[derive(Drop)]
pub struct PageSet {
    free: BitSet,
}

impl Model for PageSet {
    ghost use Rattle.std.specs.Coded.{codes};
    ghost use Rattle.std.specs.FinMap as map;
    ghost use Rattle.nv_host.specs.PageSets.{Pages};

    ghost Value = { Pages };

    ghost coded = { Prim.hlevel (codes, map.code) };

    ghost view = { λ s. s.free };
}

impl PageSet {
    /// Creates the set of the `count` page numbers from `first` on, of which there may be none. The
    /// number after the last one must be less than 2^32. The set has a bit for each page.
    pub fn new(alloc: Global, first: PageNo, count: u32) -> Result<PageSet, Memory>
        requires { first + count < 2 ^ 32 }
        ensures { IfOk result (λ s. s
            ≡ record { first = first; count = count; members = all_of first count }) }
    {
        match BitSet::full(alloc, first, count) {
            Ok(free) => Ok(PageSet { free }),
            Err(_) => Err(Memory),
        }
    }

    /// Removes and returns the lowest page number. Returns none if the set is empty, which then
    /// stays so.
    pub fn take(&mut self) -> Option<PageNo>
        ensures taken { MatchOption result
            ((self.old.members ≡ map.empty) × (self.new ≡ self.old))
            (λ page. IsLowest self.old.members page
            × (self.new ≡ record self.old { members = map.remove self.old.members page })) }
        ensures of_these { IfSome result (IsOf self.old.first self.old.count) }
    {
        self.free.take_lowest()
    }

    /// Adds a page number of the range, which must not be in the set.
    pub fn give(&mut self, page: PageNo)
        requires of_these { IsOf self.old.first self.old.count page }
        requires outside { map.contains_key self.old.members page ≡ false }
        ensures { self.new ≡ record self.old { members = insert self.old.members page } }
    {
        self.free.insert(page);
    }
}
