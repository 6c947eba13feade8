//! A subsystem that answers commands without a bus.

use anyhow::bail;
use nv_subsystem::{Command, DEMO, Origin, Reply, ReplyRoom, Subsystem};

/// Asks a controller for its active namespaces, and prints how many there are.
pub(crate) fn count_namespaces(rt: &HostRuntime) -> anyhow::Result<()> {
    let mut subsystem = Subsystem::from_toml(rt.alloc(), DEMO.as_bytes())?;
    if subsystem.controllers() == 0 {
        bail!("no controller");
    }
    let mut room = ReplyRoom::new();
    let origin = Origin {
        cid: 0,
        phase: true,
    };
    let count = match subsystem.execute(0, &Command::ActiveList { after: 0 }, origin, &mut room) {
        Ok(Reply::List(list)) => list.as_slice().len(),
        Ok(_) => bail!("another reply"),
        Err(refusal) => bail!("status {:#x}", refusal.status.number()),
    };
    println!(rt; "without bus: {count} namespaces")?;
    Ok(())
}
