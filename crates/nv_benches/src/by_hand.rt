//! A controller that is used without a driver.

ghost use Rattle.std.specs.Prelude.{◌<◌, IfOk, length};
ghost use Rattle.nv_bus.specs.Bus.{IsBus};
ghost use Rattle.nv_controller.specs.Machine.{bus_of};

use anyhow::bail;
use nv_controller::{Bus, Machine};
use nv_host::{FlatMemory, PagedMemory};
use nv_layout::{Cqe, Sqe};
use nv_prp::{Buffer, ListPlace, build};
use nv_register::offset;
use nv_subsystem::Subsystem;

/// A subsystem with one controller.
const FILE: &str = r#"version = 1
nn = 1
tnvmcap = 1048576
subnqn = "nqn.2014-08.org.example:bench"

[[format]]
lbads = 9

[[controller]]
cntlid = 0
sn = "BENCH-1"
mn = "Bench"
fr = "1.0"
"#;

/// Sends the controller an Identify command, and prints the serial number.
#[tactic(auto, unfolding(nv_host::specs::Pages::IsPageSize))]
pub(crate) fn identify(rt: &HostRuntime) -> anyhow::Result<()> {
    let subsystem = Subsystem::from_toml(rt.alloc(), FILE.as_bytes())?;
    let mut machine = Machine::new(rt.alloc(), subsystem)?;
    enable(&mut machine)?;
    let mut mem = FlatMemory::new(rt.alloc(), 4096, 16)?;
    // The data lies in the second half of page 5 and the first half of page 9.
    let buffer = Buffer {
        pages: &[5, 9],
        offset: 2048,
    };
    let list = ListPlace {
        first: 7,
        second: 8,
        offset: 0,
    };
    let (prp1, prp2) = build(&mut mem, &buffer, &list, 4096);
    let entry = Sqe {
        opcode: 0x06,
        cid: 7,
        prp1,
        prp2,
        cdw10: 0x01,
        ..Sqe::default()
    };
    let status = submit(&mut machine, &mut mem, &entry)?;
    print_serial(rt, &mem, status)
}

fn print_serial(rt: &HostRuntime, mem: &FlatMemory, status: u16) -> anyhow::Result<()> {
    let mut serial = [0; 20];
    mem.load(0x5804, &mut serial)?;
    let serial = str::from_utf8(&serial)?;
    println!(rt;
        "by hand: status {status:#x}, serial number {}",
        serial.trim_end()
    )?;
    Ok(())
}

/// Makes controller 0 ready with queues of four entries, at 0h and 1000h.
pub(crate) fn enable(machine: &mut Machine) -> anyhow::Result<()>
    requires { IsBus (bus_of machine.old) }
    ensures bus { IsBus (bus_of machine.new) }
    ensures ready { IfOk result (λ _. 0 < length machine.new.banks) }
{
    if machine.controllers() == 0 {
        bail!("no controller");
    }
    machine.write32(0, offset::AQA, 0x0003_0003);
    machine.write32(0, offset::ASQ_LOW, 0x0000);
    machine.write32(0, offset::ACQ_LOW, 0x1000);
    machine.write32(0, offset::CC, 0x0046_0001);
    Ok(())
}

/// Submits an entry to the controller, and returns the status of its completion.
fn submit(machine: &mut Machine, mem: &mut FlatMemory, entry: &Sqe) -> anyhow::Result<u16>
    requires bus { IsBus (bus_of machine.old) }
    requires ready { 0 < length machine.old.banks }
{
    let mut bytes = [0; 64];
    entry.put(&mut bytes);
    mem.store(0x0000, &bytes)?;
    machine.write32(0, offset::TAIL_DOORBELL, 1);
    if machine.turn(0, mem, 16) != 1 {
        bail!("no entry was taken");
    }
    let mut bytes = [0; 16];
    mem.load(0x1000, &mut bytes)?;
    Ok(Cqe::get(&bytes).status.number())
}
