//! A bus that records what its driver does.

ghost use Rattle.std.specs.Prelude.{◌≡◌, ◌<◌};
ghost use Rattle.nv_controller.specs.Machine.{bus_of};

use crate::answer::{Answer, Answered};
use crate::error::OperationError;
use nv_bus::{Exchange, Observer};
use nv_controller::{Bus, Machine};
use nv_host::PagedMemory;
use nv_layout::Sqe;
use std::alloc::{AllocError, Global};

/// The bytes of entries that controllers took, with only the offsets in a page of PRP1 and PRP2,
/// and the numbers of the pages that these point into.
#[derive(Drop)]
struct Entries {
    /// The page size of the memory that entries are read from, in bytes.
    page_size: u64,
    bytes: Vec<u8>,
    pages: Vec<u64>,
    /// Whether there was memory for all entries.
    is_whole: bool,
    ghost sized: { 0 < page_size },
}

impl Entries {
    fn new(alloc: Global) -> Entries {
        Entries {
            page_size: 4096,
            bytes: Vec::new(alloc),
            pages: Vec::new(alloc),
            is_whole: true,
        }
    }

    fn forget(&mut self) {
        self.bytes.clear();
        self.pages.clear();
        self.is_whole = true;
    }

    fn add(&mut self, entry: Sqe) -> Result<(), AllocError> {
        let shown = Sqe {
            prp1: entry.prp1 % self.page_size,
            prp2: entry.prp2 % self.page_size,
            ..entry
        };
        let mut bytes = [0xff; 64];
        shown.put(&mut bytes);
        self.bytes.extend_from_slice(&bytes)?;
        self.pages.extend_from_slice(&[entry.prp1 / self.page_size, entry.prp2 / self.page_size])
    }
}

impl Observer for Entries {
    fn show(&mut self, _ctrl: u16, exchange: &Exchange) {
        let added = self.add(exchange.entry);
        self.is_whole &= added.is_ok();
    }
}

/// The controllers of a subsystem, and what they saw of their driver: its register writes, their
/// turns, and the entries that they took.
#[derive(Drop)]
pub(crate) struct Watched {
    machine: Machine,
    writes: Vec<u64>,
    turns: Vec<u64>,
    entries: Entries,
    /// Whether there was memory for all writes and turns.
    is_whole: bool,
}

impl Watched {
    /// Creates a bus of which nothing was seen yet.
    pub(crate) fn new(alloc: Global, machine: Machine) -> Watched
        ensures { result.machine ≡ machine }
    {
        Watched {
            machine,
            writes: Vec::new(alloc),
            turns: Vec::new(alloc),
            entries: Entries::new(alloc),
            is_whole: true,
        }
    }

    pub(crate) fn machine(&self) -> &Machine
        ensures { result.now ≡ self.now.machine }
    {
        &self.machine
    }

    /// Forgets what was seen.
    pub(crate) fn forget(&mut self)
        ensures { self.new.machine ≡ self.old.machine }
    {
        self.writes.clear();
        self.turns.clear();
        self.entries.forget();
        self.is_whole = true;
    }

    /// Answers what was seen, and forgets it.
    pub(crate) fn tell(&mut self, answer: Answer) -> Answered
        ensures { self.new.machine ≡ self.old.machine }
    {
        if !self.is_whole || !self.entries.is_whole {
            return Err(OperationError::Memory(AllocError));
        }
        let answer = answer
            .numbers("writes", self.writes.as_slice())?
            .numbers("turns", self.turns.as_slice())?
            .bytes("entries", self.entries.bytes.as_slice())?
            .numbers("pages", self.entries.pages.as_slice())?;
        self.forget();
        Ok(answer)
    }
}

impl Bus for Watched {
    ghost meaning = { λ w. bus_of w.machine };

    fn controllers(&self) -> u16 {
        self.machine.controllers()
    }

    fn read32(&self, ctrl: u16, offset: u32) -> u32 {
        self.machine.read32(ctrl, offset)
    }

    fn write32(&mut self, ctrl: u16, offset: u32, dword: u32) {
        self.machine.write32(ctrl, offset, dword);
        let numbers = [u64::from(ctrl), u64::from(offset), u64::from(dword)];
        self.is_whole &= self.writes.extend_from_slice(&numbers).is_ok();
    }

    #[tactic(auto, using(nv_host::proofs::PageLaws::page_size_bounds))]
    fn turn<M: PagedMemory>(&mut self, ctrl: u16, mem: &mut M, most: u16) -> u16 {
        self.entries.page_size = u64::from(mem.page_size());
        let count = self.machine.turn_with(ctrl, mem, most, &mut self.entries);
        let numbers = [u64::from(ctrl), u64::from(most), u64::from(count)];
        self.is_whole &= self.turns.extend_from_slice(&numbers).is_ok();
        count
    }
}
