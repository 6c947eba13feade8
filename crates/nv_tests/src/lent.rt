//! A memory in lent bytes.

ghost use Rattle.std.specs.Prelude.{◌≡◌, IsTrue, length};
ghost use Rattle.nv_host.specs.Pages.{are_pages};

use crate::checks::check_bytes;
use nv_host::{LentBytes, LentMemory, Loan, PagedMemory};
use std::marker::Brand;
use std::process::Abort;

/// Bytes that were lent to a memory, and are returned.
#[derive(Drop)]
struct Returned<'a> {
    bytes: &'a mut [u8],
}

/// Lends two pages to a memory, stores bytes across them, and loads them again.
fn lend<'a, L: Loan>(rt: &impl Abort, bytes: &'a mut [u8]) -> Returned<'a>
    requires pages { IsTrue (are_pages 4096 (length bytes.old)) }
    requires loan { bytes.ghost_name ≡ L.reference }
{
    let mut mem: LentMemory<'a, L> = LentMemory::new(bytes, 4096);
    assert!(rt; mem.page_size() == 4096 && mem.pages() == 2, "pages");
    assert!(rt; mem.store(0xfff, &[1, 2]).is_ok(), "inside");
    assert!(rt; mem.store(0x1fff, &[3, 4]).is_err(), "outside");
    let mut three = [7; 3];
    assert!(rt; mem.load(0xffe, &mut three).is_ok(), "inside");
    check_bytes(rt, &three, &[0, 1, 2], "loaded");
    assert!(rt; mem.load(0x2000, &mut three).is_err(), "outside");
    check_bytes(rt, &three, &[0, 1, 2], "not loaded");
    let LentBytes { bytes } = mem.into_bytes();
    Returned { bytes }
}

/// Does what `lend` does, with a loan of the reference to the bytes.
fn lend_any<'a>(rt: &impl Abort, bytes: &'a mut [u8]) -> Returned<'a>
    requires pages { IsTrue (are_pages 4096 (length bytes.old)) }
{
    lend::<Brand>(rt, bytes)
}

#[test]
fn memory_in_lent_bytes(rt: HostRuntime) {
    let mut bytes = [0; 8192];
    lend_any(&rt, &mut bytes);
    check_bytes(&rt, &bytes[0xffe..0x1003], &[0, 1, 2, 0, 0], "given back");
    check_bytes(&rt, &bytes[0x1ffe..], &[0, 0], "at the end");
}
