//! A host's memory that isn't one of the library's. A controller and a driver work over it.

ghost use Rattle.std.specs.Prelude.{◌≡◌, ◌<◌, IfOk, length, refl, replicate, true};
ghost use Rattle.nv_bus.specs.Bus.{IsBus};
ghost use Rattle.nv_host.specs.FlatMemory.{only_page, with_page};

use nv_controller::{Bus, Machine};
use nv_host::{FlatMemory, HostMemory, Memory, OutOfMemoryRange, PagedMemory, Payload};
use nv_layout::{Cqe, Sqe};
use nv_prp::{Buffer, ListPlace, Spans, build, copy_in, copy_out};
use nv_queue::{CompletionRing, SubmitRing};
use nv_register::offset;
use nv_subsystem::{DEMO, Subsystem};
use std::alloc::Global;
use std::process::Abort;
use std::test::Fail;

/// A memory that remembers by which calls it was changed.
#[derive(Drop)]
struct OwnMemory {
    memory: FlatMemory,
    /// Whether a page was lent to be changed.
    lent: bool,
    /// Whether bytes were stored.
    stored: bool,
}

impl OwnMemory {
    /// Creates a memory of sixteen pages of 4,096 bytes that wasn't changed yet.
    #[tactic(auto, unfolding(nv_host::specs::Pages::IsPageSize))]
    fn new(alloc: Global) -> Result<OwnMemory, Memory>
        ensures page { IfOk result (λ m. m.memory.page_size ≡ 4096) }
        ensures len { IfOk result (λ m. length m.memory.bytes ≡ 65536) }
    {
        Ok(OwnMemory {
            memory: FlatMemory::new(alloc, 4096, 16)?,
            lent: false,
            stored: false,
        })
    }
}

impl PagedMemory for OwnMemory {
    ghost bytes = { λ m. m.memory.bytes };

    ghost page_len = { λ m. m.memory.page_size };

    fn page_size(&self) -> u32 {
        self.memory.page_size()
    }

    fn pages(&self) -> u32 {
        self.memory.pages()
    }

    fn load(&self, addr: u64, out: &mut [u8]) -> Result<(), OutOfMemoryRange> {
        self.memory.load(addr, out)
    }

    fn store(&mut self, addr: u64, source: &[u8]) -> Result<(), OutOfMemoryRange> {
        self.stored = true;
        self.memory.store(addr, source)
    }

    fn page(&self, n: u32) -> &[u8] {
        self.memory.page(n)
    }

    fn fill<P: Payload>(&mut self, n: u32, start: usize, payload: &P, from: usize, len: usize) {
        let page = self.page_mut(n);
        payload.fill(from, &mut page[start..start + len]);
    }
}

impl HostMemory for OwnMemory {
    ghost with_page = { λ m n page. record m { memory = with_page m.memory n page; lent = true } };

    ghost only_page = { λ m n page. only_page m.memory n page };

    ghost same_page_len = { λ m n page. refl };

    fn page_mut(&mut self, n: u32) -> &mut [u8] {
        self.lent = true;
        self.memory.page_mut(n)
    }
}

/// The second half of page 5 and the first half of page 3.
const BUFFER: Buffer<'static> = Buffer {
    pages: &[5, 3],
    offset: 2048,
};

/// Makes controller 0 ready with rings of four slots at 0h and 1000h.
fn enable<B: Bus>(bus: &mut B)
    requires bus { IsBus (B.meaning bus.old) }
    requires some { 0 < length (B.meaning bus.old).banks }
    ensures bus { IsBus (B.meaning bus.new) }
    ensures some { 0 < length (B.meaning bus.new).banks }
{
    bus.write32(0, offset::AQA, 0x0003_0003);
    bus.write32(0, offset::ASQ_LOW, 0x0000);
    bus.write32(0, offset::ACQ_LOW, 0x1000);
    bus.write32(0, offset::CC, 0x0046_0001);
}

/// Has controller 0 of a bus that isn't enabled identify itself, and returns the completion.
#[tactic(auto, using(nv_host::proofs::BytesLaws::length_with_bytes))]
fn identify<B: Bus, M: PagedMemory>(bus: &mut B, mem: &mut M) -> Option<Cqe>
    requires bus { IsBus (B.meaning bus.old) }
    requires some { 0 < length (B.meaning bus.old).banks }
    requires page { M.page_len mem.old ≡ 4096 }
    requires len { length (M.bytes mem.old) ≡ 65536 }
    ensures page { M.page_len mem.new ≡ 4096 }
    ensures len { length (M.bytes mem.new) ≡ 65536 }
{
    let mut submissions = SubmitRing::new(0x0000, 4);
    let mut completions = CompletionRing::new(0x1000, 4);
    completions.zero(mem);
    enable(bus);
    let list = ListPlace {
        first: 7,
        second: 8,
        offset: 0,
    };
    let (prp1, prp2) = build(mem, &BUFFER, &list, 4096);
    let entry = Sqe {
        opcode: 0x06,
        cid: 7,
        prp1,
        prp2,
        cdw10: 0x01,
        ..Sqe::default()
    };
    let tail = submissions.push(mem, &entry).ok()?;
    bus.write32(0, offset::TAIL_DOORBELL, u32::from(tail));
    bus.turn(0, mem, 16);
    completions.poll(mem)
}

/// Reads the first bytes of the buffer.
fn read<M: PagedMemory>(mem: &M, out: &mut [u8; 4096])
    requires page { M.page_len mem.now ≡ 4096 }
    requires len { length (M.bytes mem.now) ≡ 65536 }
{
    let mut spans = Spans::new();
    BUFFER.spans(mem, 4096, &mut spans);
    copy_in(mem, &spans, out);
}

/// Writes the first bytes of the buffer.
fn write<M: PagedMemory>(mem: &mut M, bytes: &[u8; 4096])
    requires page { M.page_len mem.old ≡ 4096 }
    requires len { length (M.bytes mem.old) ≡ 65536 }
    ensures page { M.page_len mem.new ≡ 4096 }
    ensures len { length (M.bytes mem.new) ≡ 65536 }
{
    let mut spans = Spans::new();
    BUFFER.spans(mem, 4096, &mut spans);
    copy_out(mem, &spans, bytes);
}

/// Has the first of new controllers identify itself, and returns the completion.
fn identify_first(alloc: Global, mem: &mut OwnMemory) -> Result<Option<Cqe>, Fail>
    requires page { mem.old.memory.page_size ≡ 4096 }
    requires len { length mem.old.memory.bytes ≡ 65536 }
    ensures page { mem.new.memory.page_size ≡ 4096 }
    ensures len { length mem.new.memory.bytes ≡ 65536 }
{
    let subsystem = Subsystem::from_toml(alloc, DEMO.as_bytes())?;
    let mut machine = Machine::new(alloc, subsystem)?;
    if machine.controllers() == 0 {
        return Ok(None);
    }
    Ok(identify(&mut machine, mem))
}

/// The controller's data is written to pages that the memory lends, where the driver finds it.
#[test]
fn a_controller_and_a_driver_work_over_it(rt: HostRuntime) -> Result<(), Fail> {
    let mut mem = OwnMemory::new(rt.alloc())?;
    let Some(completion) = identify_first(rt.alloc(), &mut mem)? else {
        assert!(rt; false, "no completion");
        return Ok(());
    };
    assert_eq!(rt; completion.cid, 7);
    assert_eq!(rt; completion.status.number(), 0);
    assert!(rt; mem.lent, "the data didn't go by a page");
    let mut data = [0; 4096];
    read(&mem, &mut data);
    assert_eq!(rt; str::from_utf8(&data[4..8]).ok(), Some("S0  "));
    Ok(())
}

#[test]
fn copies_go_by_its_pages(rt: HostRuntime) -> Result<(), Fail> {
    let mut mem = OwnMemory::new(rt.alloc())?;
    write(&mut mem, &[9; 4096]);
    assert!(rt; mem.lent && !mem.stored, "bytes were stored");
    let mut data = [0; 4096];
    read(&mem, &mut data);
    assert!(rt; data == [9; 4096], "read");
    // The byte before the buffer, its first and its last byte, and the one behind it.
    for (addr, want) in [(0x57ff, 0), (0x5800, 9), (0x37ff, 9), (0x3800, 0)] {
        let mut byte = [7];
        assert!(rt; mem.load(addr, &mut byte).is_ok());
        assert_eq!(rt; byte[0], want);
    }
    Ok(())
}
