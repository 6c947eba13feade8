//! Several runs over the same controllers.

ghost use Rattle.nv_bus.specs.Bus.{IsBus};
ghost use Rattle.nv_controller.specs.Machine.{bus_of};

use nv_controller::Machine;
use nv_layout::ThreeBits;
use nv_script::{Geometry, GeometryField, OverRead, OverWrite, RunEnd, run};
use nv_subsystem::{Command, DEMO, FeatureQuery, RecordRoom, Subsystem, dword0};
use std::alloc::Global;
use std::process::Abort;
use std::test::Fail;

const CACHE_OFF: &str = "set-feature /dev/nvme0 -f 6 -v 0\n";

const IS_OFF: &str = "set-feature:0x6 (Volatile Write Cache), value:0x0, save:0\n";

const CACHE: &str = "get-feature /dev/nvme0 -f 6\n";

/// Checks the end and the output of a script on controllers that may be in use.
fn expect_run(
    rt: &impl Abort,
    alloc: Global,
    machine: &mut Machine,
    geometry: Geometry,
    script: &str,
    want: (RunEnd, &str),
)
    requires { IsBus (bus_of machine.old) }
    ensures { IsBus (bus_of machine.new) }
{
    let mut script = OverRead::new(script.as_bytes());
    let mut out = OverWrite::new(Vec::new(alloc));
    let mut messages = OverWrite::new(Vec::new(alloc));
    let end = run(
        alloc,
        machine,
        geometry,
        &mut script,
        &mut out,
        &mut messages,
    );
    let (wanted, text) = want;
    assert!(rt; end == wanted);
    assert!(rt; out.into_inner().as_slice() == text.as_bytes());
}

/// A run first resets each controller that was in use.
#[test]
fn the_next_run_has_the_saved_values(rt: HostRuntime) -> Result<(), Fail> {
    let alloc = rt.alloc();
    let plain = Geometry::default();
    for (script, set, text) in [
        (
            CACHE_OFF,
            IS_OFF,
            "get-feature:0x6 (Volatile Write Cache), Current value:0x1\n",
        ),
        (
            "set-feature /dev/nvme0 -f 6 -v 0 -s\n",
            "set-feature:0x6 (Volatile Write Cache), value:0x0, save:1\n",
            "get-feature:0x6 (Volatile Write Cache), Current value:0x0\n",
        ),
    ] {
        let subsystem = Subsystem::from_toml(alloc, DEMO.as_bytes())?;
        let mut machine = Machine::new(alloc, subsystem)?;
        expect_run(
            &rt,
            alloc,
            &mut machine,
            plain,
            script,
            (RunEnd::Status(0), set),
        );
        expect_run(
            &rt,
            alloc,
            &mut machine,
            plain,
            CACHE,
            (RunEnd::Status(0), text),
        );
    }
    Ok(())
}

/// Checks that the current value of the first controller's write cache is 0.
fn expect_cache_off(rt: &impl Abort, machine: &Machine) {
    let get = Command::GetFeature(FeatureQuery {
        fid: 6,
        sel: ThreeBits::low(0),
        nsid: 0,
        cdw11: 0,
    });
    let subsystem = machine.subsystem();
    assert!(rt; subsystem.controllers() == 2);
    let mut room = RecordRoom::new();
    match subsystem.answer(0, &get, &mut room) {
        Ok(reply) => assert!(rt; dword0(&reply) == 0),
        Err(_) => panic!(rt; "no value"),
    }
}

/// If the geometry is out of its limits, no controller is touched.
#[test]
fn a_bad_geometry_resets_none(rt: HostRuntime) -> Result<(), Fail> {
    let alloc = rt.alloc();
    let plain = Geometry::default();
    let subsystem = Subsystem::from_toml(alloc, DEMO.as_bytes())?;
    let mut machine = Machine::new(alloc, subsystem)?;
    expect_run(
        &rt,
        alloc,
        &mut machine,
        plain,
        CACHE_OFF,
        (RunEnd::Status(0), IS_OFF),
    );
    expect_cache_off(&rt, &machine);
    let bad = Geometry { depth: 1, ..plain };
    let want = (RunEnd::Geometry(GeometryField::Depth), "");
    expect_run(&rt, alloc, &mut machine, bad, CACHE, want);
    expect_cache_off(&rt, &machine);
    Ok(())
}
