//! Memory by pages, and sets of pages.

ghost use Rattle.std.specs.Prelude.{◌≡◌, length};

use crate::checks::{check_bytes, check_text};
use nv_host::*;
use std::alloc::Global;
use std::process::Abort;

/// Checks whether a load of this many bytes lies in the memory.
fn check_load(rt: &impl Abort, mem: &FlatMemory, addr: u64, out: &mut [u8], fits: bool) {
    assert!(rt; mem.load(addr, out).is_ok() == fits, "at {addr}");
}

/// Checks whether a store of these bytes lies in the memory.
#[tactic(auto, using(nv_host::proofs::BytesLaws::length_with_bytes))]
fn check_store(rt: &impl Abort, mem: &mut FlatMemory, addr: u64, bytes: &[u8], fits: bool)
    ensures page { mem.new.page_size ≡ mem.old.page_size }
    ensures len { length mem.new.bytes ≡ length mem.old.bytes }
{
    assert!(rt; mem.store(addr, bytes).is_ok() == fits, "at {addr}");
}

#[test]
#[tactic(auto, unfolding(nv_host::specs::Pages::IsPageSize))]
fn pages_that_meet(rt: HostRuntime) {
    let Ok(mut mem) = FlatMemory::new(rt.alloc(), 4096, 3) else {
        assert!(rt; false, "out of memory");
        return;
    };
    check_store(&rt, &mut mem, 0x1fff, &[9], true);
    let mut two = [7; 2];
    check_load(&rt, &mem, 0x1fff, &mut two, true);
    check_bytes(&rt, &two, &[9, 0], "across pages");
}

#[test]
fn lowest_free_page_first(rt: HostRuntime) {
    let Ok(mut pages) = PageSet::new(rt.alloc(), 62, 5) else {
        assert!(rt; false, "out of memory");
        return;
    };
    for page in 62..67 {
        check_take(&rt, &mut pages, Some(page));
    }
    check_take(&rt, &mut pages, None);
}

/// Takes the lowest page of a set, and checks which page it is.
fn check_take(rt: &impl Abort, pages: &mut PageSet, want: Option<PageNo>) {
    assert_eq!(rt; pages.take(), want);
}

#[test]
#[tactic(auto, using(crate::proofs::SetLaws::given, crate::proofs::SetLaws::taken, crate::proofs::SetLaws::nat_tests))]
fn pages_given_in_reverse(rt: HostRuntime) {
    let Ok(mut pages) = PageSet::new(rt.alloc(), 0, 2) else {
        assert!(rt; false, "out of memory");
        return;
    };
    let Some(lower) = pages.take() else {
        assert!(rt; false, "a page is missing");
        return;
    };
    let Some(higher) = pages.take() else {
        assert!(rt; false, "a page is missing");
        return;
    };
    pages.give(higher);
    pages.give(lower);
    check_take(&rt, &mut pages, Some(0));
    check_take(&rt, &mut pages, Some(1));
    check_take(&rt, &mut pages, None);
}

#[test]
fn errors_as_text(rt: HostRuntime) {
    let Ok(range) = format!(in rt.alloc(); "{}", OutOfMemoryRange) else {
        assert!(rt; false, "out of memory");
        return;
    };
    let Ok(memory) = format!(in rt.alloc(); "{}", Memory) else {
        assert!(rt; false, "out of memory");
        return;
    };
    let want = "the range leaves the host's memory";
    check_text(&rt, range.as_str(), want, "an error");
    check_text(&rt, memory.as_str(), "out of memory", "an error");
}

/// Creates a memory of sixteen pages.
#[tactic(auto, unfolding(nv_host::specs::Pages::IsPageSize))]
fn sixteen_pages(alloc: Global) -> Result<FlatMemory, Memory> {
    FlatMemory::new(alloc, 4096, 16)
}

/// Runs the crate page's example.
#[test]
#[tactic(auto, using(crate::proofs::SetLaws::taken, crate::proofs::SetLaws::nat_tests))]
fn page_taken_and_filled(rt: HostRuntime) {
    let (Ok(mut mem), Ok(mut free)) = (sixteen_pages(rt.alloc()), PageSet::new(rt.alloc(), 4, 12))
    else {
        assert!(rt; false, "out of memory");
        return;
    };
    let Some(page) = free.take() else {
        assert!(rt; false, "a page is missing");
        return;
    };
    let mut dword = [0; 4];
    check_store(&rt, &mut mem, u64::from(page) * 4096, &[0xff; 2], true);
    check_load(&rt, &mem, u64::from(page) * 4096, &mut dword, true);
    check_bytes(&rt, &dword, &[0xff, 0xff, 0, 0], "stored");
    free.give(page);
    check_take(&rt, &mut free, Some(4));
}

#[test]
fn sizes_of_pages(rt: HostRuntime) {
    for (page_size, size) in [(4096, 0), (8192, 65536), (65536, 65536)] {
        assert!(rt;
            are_pages(page_size, size),
            "{size} in pages of {page_size}"
        );
    }
    for (page_size, size) in [
        (0, 0),
        (2048, 4096),
        (4096, 4095),
        (8192, 4096),
        (4096, 1 << 44),
    ] {
        assert!(rt;
            !are_pages(page_size, size),
            "{size} in pages of {page_size}"
        );
    }
}
