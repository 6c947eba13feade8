//! Runs scripts that are cut short, because an allocation fails at any place, and compares what a
//! run leaves behind with what its lines write. The program relies on its caller to make
//! allocations fail.
#![tactic(auto)]

mod case;
mod cases;
mod cut_run;
mod kept;
mod memory;

use cases::cases;
use memory::{Left, run_case};
use std::io;
use std::process::ExitCode;

/// Runs each script, and prints what it left behind. Returns whether each run left whole lines
/// only.
fn run_each(rt: &HostRuntime) -> io::Result<bool> {
    let mut is_right = true;
    for case in cases(rt.alloc())?.iter() {
        let left = run_case(rt.alloc(), case)?;
        is_right = is_right && left != Left::Other;
        let lines = case.lines.len();
        println!(rt; "{lines} lines: {left}")?;
    }
    Ok(is_right)
}

fn main(rt: HostRuntime) -> ExitCode {
    match run_each(&rt) {
        Ok(true) => ExitCode::from(0),
        Ok(false) => ExitCode::from(1),
        Err(_) => ExitCode::from(6),
    }
}
