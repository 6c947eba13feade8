//! Subsystems that are read from files.

use nv_subsystem::{DEMO, Subsystem};

/// Reads the demonstration file, and then a copy in which one number is out of range.
pub(crate) fn read_two(rt: &HostRuntime) -> anyhow::Result<()> {
    let broken = DEMO.replace(rt.alloc(), "nn = 4", "nn = 0")?;
    for text in [DEMO, broken.as_str()] {
        match Subsystem::from_toml(rt.alloc(), text.as_bytes()) {
            Ok(subsystem) => {
                println!(rt; "from file: {} controllers", subsystem.controllers())?;
            }
            Err(fault) => println!(rt; "from file: {fault}")?,
        }
    }
    Ok(())
}
