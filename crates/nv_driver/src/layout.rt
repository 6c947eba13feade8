//! Where each controller's rings and pages lie in the host's memory.

ghost use Rattle.std.specs.Prelude.{◌≡◌, ◌+◌, ◌*◌, ◌^◌, ◌<◌, ◌≤◌, if◌then◌else◌};
ghost use Rattle.nv_bus.specs.Call.{length_of};
ghost use Rattle.nv_model.specs.Conditions.{greatest_limit};
ghost use Rattle.nv_driver.specs.Layout.{completion_pages, pages_of_entry, pair_of, pair_pages, pages_of};
ghost use Rattle.nv_driver.specs.Layout.{data_count, most_bytes, pages_of_command, set_pages, submission_pages};

use crate::checked_geometry::CheckedGeometry;
use nv_command::Transfer;
use nv_host::PageNo;

/// The greatest length of a command's data, in bytes.
const MOST_BYTES: u32 = 16_384;

/// The greatest number of bytes that a controller transfers for one command, because its MDTS is at
/// most 8. Section "Identify Controller data structure".
pub(crate) const MOST_ENTRY_BYTES: u32 = 1_048_576;

/// The pages of an outstanding command in addition to those of its data: one if the data begins
/// inside a page, and two for a PRP list that begins inside a page.
const MORE_PAGES: u32 = 3;

/// Where one controller's rings and pages lie.
#[derive(Clone, Copy)]
pub struct Place {
    /// The address of the submission ring.
    pub sq: u64,
    /// The address of the completion ring.
    pub cq: u64,
    /// The first of its commands' pages.
    pub first_page: PageNo,
    /// How many they are.
    pub page_count: u32,
}

impl CheckedGeometry {
    /// Returns how many pages a submission ring takes.
    #[tactic(auto, unfolding(crate::specs::Layout::submission_pages))]
    fn submission_pages(self) -> u32
        ensures pages { result ≡ submission_pages self }
        ensures few { result ≤ 0x80000 }
    {
        (64 * u32::from(self.depth)).div_ceil(self.page_size)
    }

    /// Returns how many pages a completion ring takes.
    #[tactic(auto, unfolding(crate::specs::Layout::completion_pages))]
    fn completion_pages(self) -> u32
        ensures pages { result ≡ completion_pages self }
        ensures few { result ≤ 0x80000 }
    {
        (16 * u32::from(self.depth)).div_ceil(self.page_size)
    }

    /// Returns how many pages the outstanding commands take.
    #[tactic(auto, unfolding(crate::specs::Layout::set_pages))]
    fn set_pages(self) -> u32
        ensures pages { result ≡ set_pages self }
        ensures few { result ≤ 0x80000 }
    {
        u32::from(self.window) * (MOST_BYTES.div_ceil(self.page_size) + MORE_PAGES)
    }

    /// Returns how many pages a request has: those that its data lies in, and two for a list.
    pub(crate) fn page_count(self, transfer: Transfer) -> usize
        requires { length_of transfer ≤ greatest_limit }
        ensures pages { result ≡ data_count self (length_of transfer) + 2 }
        ensures most { result ≤ 259 }
    {
        let len = transfer.bytes() as u32;
        (self.offset + len).div_ceil(self.page_size) as usize + 2
    }

    /// Returns how many pages one controller takes.
    fn pair_pages(self) -> u32
        ensures pages { result ≡ pair_pages self }
        ensures few { result ≤ 0x180000 }
    {
        self.submission_pages() + self.completion_pages() + self.set_pages()
    }

    /// Returns how many pages `controllers` controllers take, at most 16 of them.
    #[tactic(auto, using(crate::proofs::MemoryLaws::pair_times))]
    pub(crate) fn pages(self, controllers: u16) -> u32
        requires controllers { controllers ≤ 16 }
        ensures pages { result ≡ pages_of self controllers }
        ensures few { result ≤ 0x1800000 }
    {
        u32::from(controllers) * self.pair_pages()
    }

    /// Returns how many pages follow those of the controllers: those of an entry that is sent
    /// unchanged if they are wanted.
    #[tactic(auto, using(crate::proofs::PointerLaws::entry_pages_few))]
    pub(crate) fn more_pages(self, with_entries: bool) -> u32
        ensures pages { result
            ≡ (if with_entries then pages_of_entry self.page_size else 0) }
        ensures few { result ≤ 259 }
    {
        if with_entries {
            MOST_ENTRY_BYTES.div_ceil(self.page_size) + MORE_PAGES
        } else {
            0
        }
    }

    /// Returns where the rings and pages of a controller lie. The numbers of its pages fit 32 bits.
    #[tactic(auto, using(crate::proofs::MemoryLaws::lay))]
    pub(crate) fn place(self, ctrl: u16) -> Place
        requires ctrl { ctrl < 16 }
        ensures sq { result.sq ≡ (pair_of self ctrl).sq }
        ensures cq { result.cq ≡ (pair_of self ctrl).cq }
        ensures first_page { result.first_page ≡ (pair_of self ctrl).first_page }
        ensures page_count { result.page_count ≡ (pair_of self ctrl).page_count }
        ensures numbered { result.first_page + result.page_count < 2 ^ 32 }
    {
        let first = u32::from(ctrl) * self.pair_pages();
        let second = first + self.submission_pages();
        Place {
            sq: u64::from(first) * u64::from(self.page_size),
            cq: u64::from(second) * u64::from(self.page_size),
            first_page: second + self.completion_pages(),
            page_count: self.set_pages(),
        }
    }
}
