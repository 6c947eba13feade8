//! A script in memory.

use nv_controller::Machine;
use nv_script::{Geometry, OverRead, OverWrite, run};
use nv_subsystem::{DEMO, Subsystem};

/// Runs two lines, and prints what they wrote and how the run ended.
pub(crate) fn run_two_lines(rt: &HostRuntime) -> anyhow::Result<()> {
    let alloc = rt.alloc();
    let subsystem = Subsystem::from_toml(alloc, DEMO.as_bytes())?;
    let mut machine = Machine::new(alloc, subsystem)?;
    let mut script = OverRead::new(b"list-ns /dev/nvme0 -n 3\nbogus\n".as_slice());
    let mut out = OverWrite::new(Vec::new(alloc));
    let mut messages = OverWrite::new(Vec::new(alloc));
    let end = run(
        alloc,
        &mut machine,
        Geometry::default(),
        &mut script,
        &mut out,
        &mut messages,
    );
    let out = String::from_utf8(out.into_inner())?;
    let messages = String::from_utf8(messages.into_inner())?;
    print!(rt; "in memory: output {out}in memory: message {messages}")?;
    println!(rt; "in memory: end {end}")?;
    Ok(())
}
