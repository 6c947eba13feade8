//! What the program reads from its arguments, and its message for an end that no lawful bus causes.

use nv_program::{Stop, asked, status_of};
use nv_script::RunEnd;
use std::test::Fail;

#[test]
fn says_that_a_controller_is_not_ready(rt: HostRuntime) -> Result<(), Fail> {
    match status_of(RunEnd::NoReady) {
        Ok(_) => assert!(rt; false),
        Err(stop) => {
            assert!(rt; stop == Stop::NoReady);
            assert_eq!(rt; stop.status(), 3);
            let shown = format!(in rt.alloc(); "{stop}")?;
            assert_eq!(rt; shown.as_str(), "no ready");
        }
    }
    Ok(())
}

#[test]
fn asks_for_the_built_in_subsystem_and_a_depth(rt: HostRuntime) {
    match asked(&rt, &["nvme-script", "--depth=8"]) {
        Ok((subsystem, geometry)) => {
            assert_eq!(rt; subsystem.controllers(), 2);
            assert_eq!(rt; geometry.depth, 8);
        }
        Err(_) => assert!(rt; false),
    }
}

#[test]
fn stops_at_what_the_program_does_not_take(rt: HostRuntime) {
    match asked(&rt, &["nvme-script", "two.toml"]) {
        Ok(_) => assert!(rt; false),
        Err(stop) => assert!(rt; stop == Stop::Arguments),
    }
}
