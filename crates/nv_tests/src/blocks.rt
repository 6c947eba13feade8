//! Turns over entries and completions in bytes, as the standard lays them out.

ghost use Rattle.std.specs.Prelude.{◌<◌};

use byteorder::{ByteOrder, LittleEndian};
use nv_blocks::{Namespace, Stop, Terms, turn};
use nv_host::{FlatMemory, PagedMemory};
use nv_queue::{Fetch, Post};
use std::process::Abort;

/// Where the completion queue lies. The submission queue begins at address 0.
const COMPLETIONS: u64 = 0x1000;

/// Stores dwords from an address on.
fn store_dword(rt: &impl Abort, mem: &mut FlatMemory, addr: u64, dword: u32) {
    let mut bytes = [0; 4];
    LittleEndian::write_u32(&mut bytes, dword);
    assert!(rt; mem.store(addr, &bytes).is_ok(), "at {addr}");
}

/// Checks a dword in the memory.
fn check_dword(rt: &impl Abort, mem: &FlatMemory, addr: u64, want: u32) {
    let mut bytes = [0; 4];
    assert!(rt; mem.load(addr, &mut bytes).is_ok(), "at {addr}");
    let found = LittleEndian::read_u32(&bytes);
    assert!(rt; found == want, "{found} in place of {want} at {addr}");
}

/// An entry for namespace 5, whose data begins at an address below 4 GiB.
#[derive(Clone, Copy)]
struct Entry {
    opcode: u32,
    data: u32,
    cdw10: u32,
    cdw11: u32,
    cdw12: u32,
}

impl Entry {
    /// An entry of a command for blocks: its first block, and one less than the number of blocks.
    fn of_blocks(opcode: u32, data: u32, slba: u32, nlb: u32) -> Entry {
        Entry {
            opcode,
            data,
            cdw10: slba,
            cdw11: 0,
            cdw12: nlb,
        }
    }
}

/// Stores an entry in a slot of the submission queue. Its command identifier is 100 more than the
/// slot.
fn submit(rt: &impl Abort, mem: &mut FlatMemory, slot: u8, entry: Entry) {
    let addr = 64 * u64::from(slot);
    store_dword(
        rt,
        mem,
        addr,
        entry.opcode % 256 + (100 + u32::from(slot)) * 65536,
    );
    store_dword(rt, mem, addr + 4, 5);
    store_dword(rt, mem, addr + 24, entry.data);
    store_dword(rt, mem, addr + 40, entry.cdw10);
    store_dword(rt, mem, addr + 44, entry.cdw11);
    store_dword(rt, mem, addr + 48, entry.cdw12);
}

/// Checks the completion in a slot: it reports queue 3 with the head after the slot, the slot's
/// command identifier, phase tag 1, and this status field.
fn check_completion(rt: &impl Abort, mem: &FlatMemory, slot: u8, status: u16) {
    let addr = COMPLETIONS + 16 * u64::from(slot);
    check_dword(rt, mem, addr, 0);
    check_dword(rt, mem, addr + 8, u32::from(slot) + 1 + 3 * 65536);
    let tagged = 2 * u32::from(status % 32768) + 1;
    check_dword(rt, mem, addr + 12, 100 + u32::from(slot) + tagged * 65536);
}

#[test]
#[tactic(auto, unfolding(nv_host::specs::Pages::IsPageSize))]
fn blocks_as_bytes(rt: HostRuntime) {
    let Ok(mut mem) = FlatMemory::new(rt.alloc(), 4096, 8) else {
        assert!(rt; false, "out of memory");
        return;
    };
    let mut stored = [0; 4096];
    let mut fetch = Fetch::new(0, 8);
    let mut post = Post::new(COMPLETIONS, 8);
    let terms = Terms {
        sqid: 3,
        namespace: Some(Namespace {
            nsid: 5,
            block_size: 512,
        }),
        limit: 1024,
        is_exhausted: false,
    };
    store_dword(&rt, &mut mem, 0x2000, 0x1111_1111);
    store_dword(&rt, &mut mem, 0x2200, 0x2222_2222);
    // a range of one block, the fifth
    store_dword(&rt, &mut mem, 0x4004, 1);
    store_dword(&rt, &mut mem, 0x4008, 4);
    submit(&rt, &mut mem, 0, Entry::of_blocks(0x01, 0x2000, 3, 1));
    submit(&rt, &mut mem, 1, Entry::of_blocks(0x02, 0x3000, 4, 0));
    submit(&rt, &mut mem, 2, Entry::of_blocks(0x05, 0x2000, 4, 0));
    submit(&rt, &mut mem, 3, Entry::of_blocks(0x01, 0x2000, 7, 1));
    submit(
        &rt,
        &mut mem,
        4,
        Entry {
            opcode: 0x09,
            data: 0x4000,
            cdw10: 0,
            cdw11: 4,
            cdw12: 0,
        },
    );
    submit(&rt, &mut mem, 5, Entry::of_blocks(0x02, 0x3000, 0, 2));
    fetch.tail(6);
    for _ in 0..6 {
        let taken = turn(&mut fetch, &mut post, &mut mem, &mut stored, &terms);
        assert!(rt; taken.is_ok(), "an entry isn't taken");
    }
    assert!(rt; turn(&mut fetch, &mut post, &mut mem, &mut stored, &terms) == Err(Stop::Empty));
    check_completion(&rt, &mem, 0, 0);
    check_completion(&rt, &mem, 1, 0);
    check_completion(&rt, &mem, 2, 0x4285);
    check_completion(&rt, &mem, 3, 0x4080);
    check_completion(&rt, &mem, 4, 0);
    check_completion(&rt, &mem, 5, 0x4002);
    check_dword(&rt, &mem, 0x3000, 0x2222_2222);
    assert_eq!(&rt; stored[1536], 0x11);
    assert_eq!(&rt; stored[2048], 0);
}
