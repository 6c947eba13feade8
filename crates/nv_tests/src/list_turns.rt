//! The number of turns in which `list` asks controllers.

ghost use Rattle.std.specs.Prelude.{◌≡◌};
ghost use Rattle.nv_bus.specs.Bus.{IsBus};
ghost use Rattle.nv_controller.specs.Machine.{bus_of};

use nv_controller::{Bus, Machine};
use nv_host::PagedMemory;
use nv_script::{Geometry, OverRead, OverWrite, RunEnd, run};
use nv_subsystem::Subsystem;
use std::alloc::{AllocError, Global};
use std::process::Abort;
use std::test::Fail;

/// How many turns are recorded.
const KEPT: usize = 16;

/// The controllers of a subsystem, the number of turns that they were given, and how many entries
/// each of the first turns took.
#[derive(Drop)]
struct TurnCounts {
    machine: Machine,
    taken: [u16; KEPT],
    turns: usize,
}

impl TurnCounts {
    /// Creates controllers that have had no turn yet.
    fn new(machine: Machine) -> TurnCounts
        ensures { ⟦<TurnCounts as Bus>⟧.meaning result ≡ bus_of machine }
    {
        TurnCounts {
            machine,
            taken: [0; KEPT],
            turns: 0,
        }
    }
}

impl Bus for TurnCounts {
    ghost meaning = { λ t. bus_of t.machine };

    fn controllers(&self) -> u16 {
        self.machine.controllers()
    }

    fn read32(&self, ctrl: u16, offset: u32) -> u32 {
        self.machine.read32(ctrl, offset)
    }

    fn write32(&mut self, ctrl: u16, offset: u32, dword: u32) {
        self.machine.write32(ctrl, offset, dword)
    }

    fn turn<M: PagedMemory>(&mut self, ctrl: u16, mem: &mut M, most: u16) -> u16 {
        let count = self.machine.turn(ctrl, mem, most);
        if self.turns < KEPT {
            self.taken[self.turns] = count;
        }
        self.turns = self.turns.saturating_add(1);
        count
    }
}

/// Returns a file with two controllers and forty namespaces that are attached to both.
fn shared_file(alloc: Global) -> Result<String, AllocError> {
    let mut file = String::new(alloc);
    write!(
        file,
        "version = 1\nnn = 40\ntnvmcap = 20480\nsubnqn = \"n\"\n"
    )?;
    write!(file, "[[format]]\nlbads = 9\n")?;
    for cntlid in [7, 3] {
        write!(file, "[[controller]]\ncntlid = {cntlid}\n")?;
        write!(file, "sn = \"S\"\nmn = \"M\"\nfr = \"1\"\n")?;
    }
    for nsid in 1..41u32 {
        write!(file, "[[namespace]]\nnsid = {nsid}\nbytes = 512\n")?;
        write!(file, "format = 0\nshared = true\ncontrollers = [3, 7]\n")?;
    }
    Ok(file)
}

/// Runs `list` over controllers, and returns how it ended and what it wrote to the two streams.
fn list_over(alloc: Global, bus: &mut TurnCounts, geometry: Geometry) -> (RunEnd, Vec<u8>, Vec<u8>)
    requires { IsBus (⟦<TurnCounts as Bus>⟧.meaning bus.old) }
{
    let mut script = OverRead::new(b"list\n".as_slice());
    let mut out = OverWrite::new(Vec::new(alloc));
    let mut messages = OverWrite::new(Vec::new(alloc));
    let end = run(alloc, bus, geometry, &mut script, &mut out, &mut messages);
    (end, out.into_inner(), messages.into_inner())
}

/// Checks the number of turns that `list` gives these controllers, and how many entries the first
/// ones take.
fn expect_turns(
    rt: &impl Abort,
    alloc: Global,
    geometry: Geometry,
    turns: usize,
    taken: [u16; KEPT],
) -> Result<(), Fail> {
    let subsystem = Subsystem::from_toml(alloc, shared_file(alloc)?.as_bytes())?;
    let mut bus = TurnCounts::new(Machine::new(alloc, subsystem)?);
    let (end, out, messages) = list_over(alloc, &mut bus, geometry);
    assert!(rt; end == RunEnd::Status(0));
    // Each line has 120 bytes.
    assert_eq!(rt; out.len(), 9600);
    assert!(rt; messages.is_empty());
    assert_eq!(rt; bus.turns, turns);
    assert_eq!(rt; bus.taken, taken);
    Ok(())
}

/// Each controller is asked for its own data, for its list of namespaces, and for the data of each
/// of them.
#[test]
fn asks_for_sixteen_namespaces_at_a_time(rt: HostRuntime) -> Result<(), Fail> {
    let geometry = Geometry {
        depth: 17,
        window: 16,
        pace: 16,
        ..Geometry::default()
    };
    let taken = [1, 1, 16, 16, 8, 1, 1, 16, 16, 8, 0, 0, 0, 0, 0, 0];
    expect_turns(&rt, rt.alloc(), geometry, 10, taken)
}

#[test]
fn asks_for_one_namespace_at_a_time_where_the_window_is_one(rt: HostRuntime) -> Result<(), Fail> {
    let geometry = Geometry {
        depth: 2,
        ..Geometry::default()
    };
    expect_turns(&rt, rt.alloc(), geometry, 84, [1; KEPT])
}
