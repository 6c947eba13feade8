//! The pages that one request has in the host's memory.

ghost use Rattle.std.specs.Prelude.{◌≡◌, ◌≢◌, ◌≤◌, All, AllPairs, false, length};
ghost use Rattle.std.specs.FinMap as map_of;
ghost use Rattle.nv_host.specs.PageSets.{IsOf};
ghost use Rattle.nv_driver.specs.CommandPages.{AreLowest, AreTaken, all_pages, without};
ghost use Rattle.nv_driver.specs.inner.CommandPages.{with_pages};
ghost use Rattle.nv_driver.specs.Submitting.{place_in};
ghost use Rattle.nv_driver.specs.inner.Submitting.{request_place};

use crate::checked_geometry::CheckedGeometry;
use crate::submitting::DataPlace;
use nv_host::{PageNo, PageSet};

/// The greatest number of pages of a request: 257 for 1,048,576 bytes that begin inside a page of
/// 4,096, and two for a list.
const MOST_PAGES: usize = 259;

/// The pages of a request: two for a list, and then those of its data.
#[derive(Clone, Copy)]
pub struct CommandPages {
    pub numbers: [PageNo; MOST_PAGES],
    pub count: usize,
}

impl CommandPages {
    /// The pages of a request that has none.
    pub(crate) const NONE: CommandPages = CommandPages {
        numbers: [0; MOST_PAGES],
        count: 0,
    };

    /// Takes the `count` lowest pages of a set, in order, in place of those before.
    pub(crate) fn take(&mut self, free: &mut PageSet, count: usize)
        requires few { count ≤ 259 }
        requires enough { count ≤ map_of.len free.old.members }
        ensures count { self.new.count ≡ count }
        ensures long { length self.new.numbers ≡ 259 }
        ensures taken { AreTaken free.old (all_pages self.new) }
        ensures lowest { AreLowest free.old (all_pages self.new) }
        ensures set { free.new ≡ without free.old (all_pages self.new) }
    {
        for at in 0..count {
            self.numbers[at] = free.take().unwrap();
        }
        self.count = count;
    }

    /// Returns the pages to their set, which must have none of them.
    pub(crate) fn give(&self, free: &mut PageSet)
        requires few { self.now.count ≤ 259 }
        requires own { All (λ p. IsOf free.old.first free.old.count p) (all_pages self.now) }
        requires none { All (λ p. map_of.contains_key free.old.members p ≡ false) (all_pages self.now) }
        requires distinct { AllPairs (λ p q. p ≢ q) (all_pages self.now) }
        ensures { free.new ≡ with_pages free.old (all_pages self.now) }
    {
        let pages = &self.numbers[..self.count];
        for at in 0..pages.len() {
            free.give(pages[at]);
        }
    }

    /// Returns the place of a request's data and list.
    pub(crate) fn place(&self, geometry: CheckedGeometry) -> DataPlace<'_>
        requires few { self.now.count ≤ 259 }
        requires list { 2 ≤ self.now.count }
        ensures place { request_place result ≡ place_in geometry (all_pages self.now) }
    {
        DataPlace::within(geometry, &self.numbers[..self.count])
    }
}
