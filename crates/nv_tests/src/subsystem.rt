//! Commands that a subsystem executes without a bus.

use crate::checks::check_number;
use nv_subsystem::*;
use std::process::Abort;
use std::test::Fail;

/// Checks that the first controller returns these NSIDs.
fn check_list(rt: &impl Abort, subsystem: &mut Subsystem, want: &[u32]) {
    let origin = Origin {
        cid: 0,
        phase: true,
    };
    assert!(rt; subsystem.controllers() == 2);
    let mut room = ReplyRoom::new();
    match subsystem.execute(0, &Command::ActiveList { after: 0 }, origin, &mut room) {
        Ok(Reply::List(ids)) => assert_eq!(rt; ids.as_slice(), want),
        _ => panic!(rt; "no list"),
    }
}

/// Checks that the first controller deletes a namespace.
fn check_deleted(rt: &impl Abort, subsystem: &mut Subsystem, nsid: u32) {
    let origin = Origin {
        cid: 1,
        phase: true,
    };
    assert!(rt; subsystem.controllers() == 2);
    let mut room = ReplyRoom::new();
    let deleted = subsystem.execute(0, &Command::Delete { nsid }, origin, &mut room);
    assert!(rt; matches!(deleted, Ok(Reply::Done)));
}

/// Checks that the first controller refuses to return the data of namespace 0.
fn check_refused(rt: &impl Abort, subsystem: &mut Subsystem, origin: Origin) {
    assert!(rt; subsystem.controllers() == 2);
    let mut room = ReplyRoom::new();
    let command = Command::IdentifyNamespace { nsid: 0 };
    match subsystem.execute(0, &command, origin, &mut room) {
        Err(refusal) => check_number(rt, u64::from(refusal.status.number()), 0x600b, "a refusal"),
        Ok(_) => panic!(rt; "no refusal"),
    }
}

/// Checks that the first controller's error log has this entry, the only one.
fn check_logged(rt: &impl Abort, subsystem: &mut Subsystem, want: Origin) {
    let origin = Origin {
        cid: 3,
        phase: false,
    };
    let command = Command::GetLog(LogQuery {
        lid: ERROR_INFORMATION,
        nsid: 0,
        offset: 0,
        dwords: DwordCount::from_zeros_based(15),
    });
    assert!(rt; subsystem.controllers() == 2);
    let mut room = ReplyRoom::new();
    match subsystem.execute(0, &command, origin, &mut room) {
        Ok(Reply::Errors(entries)) => {
            assert!(rt; entries.len() == 4);
            let newest = entries.get(0);
            assert_eq!(rt;
                (newest.count, newest.cid, newest.phase),
                (1, want.cid, want.phase)
            );
            assert!(rt; entries.get(1).count == 0);
        }
        _ => panic!(rt; "no entries"),
    }
}

#[test]
fn executes_commands_without_a_bus(rt: HostRuntime) -> Result<(), Fail> {
    let mut subsystem = Subsystem::from_toml(rt.alloc(), DEMO.as_bytes())?;
    check_list(&rt, &mut subsystem, &[1, 3]);
    check_deleted(&rt, &mut subsystem, 1);
    check_list(&rt, &mut subsystem, &[3]);
    let origin = Origin {
        cid: 7,
        phase: true,
    };
    check_refused(&rt, &mut subsystem, origin);
    check_logged(&rt, &mut subsystem, origin);
    assert!(rt; subsystem.controllers() == 2);
    let counts = subsystem.counts(0);
    assert!(rt; (counts.refusals, counts.commands) == (1, 5));
    Ok(())
}
