//! A bus that wraps another bus.

use anyhow::bail;
use nv_command::{Command, Reply};
use nv_controller::{Bus, Machine};
use nv_driver::{AnswerRoom, Driver, Geometry};
use nv_host::PagedMemory;
use nv_subsystem::{DEMO, Subsystem};

/// A bus that counts its turns.
#[derive(Drop)]
pub struct Counted<B> {
    bus: B,
    turns: u64,
}

impl<B: Bus> Bus for Counted<B> {
    ghost meaning = { λ c. B.meaning c.bus };

    fn controllers(&self) -> u16 {
        self.bus.controllers()
    }

    fn read32(&self, ctrl: u16, offset: u32) -> u32 {
        self.bus.read32(ctrl, offset)
    }

    fn write32(&mut self, ctrl: u16, offset: u32, dword: u32) {
        self.bus.write32(ctrl, offset, dword)
    }

    fn turn<M: PagedMemory>(&mut self, ctrl: u16, mem: &mut M, most: u16) -> u16 {
        self.turns = self.turns.saturating_add(1);
        self.bus.turn(ctrl, mem, most)
    }
}

/// Reads the list of active namespaces, and prints how many turns this took.
pub(crate) fn count_turns(rt: &HostRuntime) -> anyhow::Result<()> {
    let subsystem = Subsystem::from_toml(rt.alloc(), DEMO.as_bytes())?;
    let machine = Machine::new(rt.alloc(), subsystem)?;
    let mut bus = Counted {
        bus: machine,
        turns: 0,
    };
    let mut driver = Driver::bring_up(rt.alloc(), &mut bus, Geometry::default())?;
    if driver.controllers() == 0 {
        bail!("no controller");
    }
    let mut room = AnswerRoom::new();
    let command = Command::ActiveList { after: 0 };
    let count = match driver.admin(&mut bus, 0, &command, &mut room) {
        Ok(Reply::List(list)) => list.as_slice().len(),
        Ok(_) => bail!("another reply"),
        Err(status) => bail!("status {:#x}", status.number()),
    };
    println!(rt; "own bus: {count} namespaces, turns: {}", bus.turns)?;
    Ok(())
}
