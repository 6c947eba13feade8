//! A log that is read into pages in any order, with a PRP List that is written directly.

ghost use Rattle.std.specs.Prelude.{◌<◌, length};
ghost use Rattle.nv_bus.specs.Bus.{IsBus};
ghost use Rattle.nv_controller.specs.Machine.{bus_of};

use crate::by_hand::enable;
use anyhow::bail;
use nv_controller::{Bus, Machine};
use nv_host::{FlatMemory, PagedMemory};
use nv_layout::{ErrorEntry, Sqe};
use nv_register::offset;
use nv_subsystem::{DEMO, Subsystem};

/// Makes a controller refuse an entry, reads 16,384 bytes of its error log into pages 13, 5, 11 and
/// 6, and prints the newest error and the last bytes.
#[tactic(auto, unfolding(nv_host::specs::Pages::IsPageSize))]
pub(crate) fn read_log(rt: &HostRuntime) -> anyhow::Result<()> {
    let reserved = Sqe {
        opcode: 0xff,
        cid: 1,
        ..Sqe::default()
    };
    let log = Sqe {
        opcode: 0x02,
        cid: 2,
        nsid: 0xffff_ffff,
        prp1: 0xd000,
        prp2: 0x8000,
        cdw10: 0x0fff_0001,
        ..Sqe::default()
    };
    let subsystem = Subsystem::from_toml(rt.alloc(), DEMO.as_bytes())?;
    let mut machine = Machine::new(rt.alloc(), subsystem)?;
    enable(&mut machine)?;
    let mut mem = FlatMemory::new(rt.alloc(), 4096, 16)?;
    list_pages(&mut mem)?;
    submit(&mut machine, &mut mem, &reserved, &log)?;
    print_log(rt, &mem)
}

/// Writes the list. PRP1 is the address of page 13, and PRP2 that of the list, with the other pages.
fn list_pages(mem: &mut FlatMemory) -> anyhow::Result<()> {
    mem.store(0x8000, &0x5000u64.to_le_bytes())?;
    mem.store(0x8008, &0xb000u64.to_le_bytes())?;
    mem.store(0x8010, &0x6000u64.to_le_bytes())?;
    mem.store(0x6ff8, &[0xff; 8])?;
    Ok(())
}

fn print_log(rt: &HostRuntime, mem: &FlatMemory) -> anyhow::Result<()> {
    let mut newest = [0; 64];
    mem.load(0xd000, &mut newest)?;
    let newest = ErrorEntry::get(&newest);
    let mut last = [0; 8];
    mem.load(0x6ff8, &mut last)?;
    println!(rt;
        "by list: error {}, command {}, status {}, last bytes {:#x}",
        newest.count,
        newest.cid,
        newest.status,
        u64::from_le_bytes(last)
    )?;
    Ok(())
}

/// Submits two entries to the controller at once.
fn submit(
    machine: &mut Machine,
    mem: &mut FlatMemory,
    first: &Sqe,
    second: &Sqe,
) -> anyhow::Result<()>
    requires bus { IsBus (bus_of machine.old) }
    requires ready { 0 < length machine.old.banks }
{
    let mut bytes = [0; 64];
    first.put(&mut bytes);
    mem.store(0x0000, &bytes)?;
    second.put(&mut bytes);
    mem.store(0x0040, &bytes)?;
    machine.write32(0, offset::TAIL_DOORBELL, 2);
    if machine.turn(0, mem, 16) != 2 {
        bail!("not both entries were taken");
    }
    Ok(())
}
