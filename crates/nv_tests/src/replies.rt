//! Replies that are written as data, read from it, and kept in a room.

ghost use Rattle.std.specs.Prelude.{◌≡◌, length};
ghost use Rattle.nv_command.specs.Command.{bytes_to_host, transfer_by};
ghost use Rattle.nv_command.specs.Logs.{IsSendable};

use crate::checks::{check_bytes, check_number, check_text};
use nv_command::*;
use nv_layout::*;
use std::process::Abort;
use std::test::Fail;

#[test]
fn replies_by_their_pages(rt: HostRuntime) {
    let none = Lbaf {
        ms: 0,
        lbads: 0,
        rp: 0,
    };
    let namespace = IdNs {
        nsze: 9,
        ncap: 9,
        nuse: 0,
        nsfeat: 0,
        nlbaf: 0,
        flbas: 0,
        mc: 0,
        dpc: 0,
        dps: 0,
        nmic: 0,
        nvmcap: 4608,
        lbafs: [none; 16],
    };
    let mut page = [0xff; 4096];
    namespace.put(&mut page);
    check_namespace(&rt, &IdNs::get(&page), &namespace);
    let command = Command::IdentifyNamespace { nsid: 3 };
    let mut room = ReplyRoom::new();
    room.read(&command, 0, &page);
    match room.reply() {
        Reply::Namespace(read) => check_namespace(&rt, read.get(), &namespace),
        _ => panic!(rt; "no namespace"),
    }
}

fn check_namespace(rt: &impl Abort, found: &IdNs, want: &IdNs) {
    assert_eq!(rt; found, want);
}

#[test]
fn lists_by_their_pages(rt: HostRuntime) {
    let mut page = [0xff; 4096];
    NamespaceIds::new(&[1, 3]).put(&mut page);
    check_bytes(&rt, &page[..9], &[1, 0, 0, 0, 3, 0, 0, 0, 0], "a list");
    let mut room = ReplyRoom::new();
    room.read(&Command::ActiveList { after: 0 }, 0, &page);
    check_list(&rt, &room, &[1, 3]);
}

/// Checks that a reply is this list of namespaces.
fn check_list(rt: &impl Abort, room: &ReplyRoom, want: &[u32]) {
    match room.reply() {
        Reply::List(ids) => assert_eq!(rt; ids.as_slice(), want),
        _ => panic!(rt; "no list"),
    }
}

#[test]
fn replies_to_features_and_formats(rt: HostRuntime) {
    let mut room = ReplyRoom::new();
    let get = Command::GetFeature(FeatureQuery {
        fid: 6,
        sel: ThreeBits::low(0),
        nsid: 7,
        cdw11: 0,
    });
    room.read(&get, 5, &[]);
    assert!(rt; matches!(room.reply(), Reply::Number(5)));
    let set = Command::SetFeature(FeatureSetting {
        fid: 6,
        value: 0,
        save: true,
        nsid: 7,
    });
    room.read(&set, 5, &[]);
    assert!(rt; matches!(room.reply(), Reply::Done));
    room.keep(&Reply::Number(7));
    let format = Command::Format(NewFormat {
        nsid: 7,
        lbaf: FourBits::low(0),
        mset: false,
        pi: ThreeBits::low(0),
        pil: false,
        ses: ThreeBits::low(0),
    });
    room.read(&format, 5, &[]);
    assert!(rt; matches!(room.reply(), Reply::Done));
}

#[test]
fn replies_of_management(rt: HostRuntime) {
    let mut room = ReplyRoom::new();
    let create = Command::Create(NewNamespace {
        nsze: 9,
        ncap: 9,
        flbas: 0,
        dps: 0,
        nmic: 1,
    });
    room.read(&create, 4, &[]);
    match room.reply() {
        Reply::Number(nsid) => check_number(&rt, u64::from(nsid), 4, "of a creation"),
        _ => panic!(rt; "no number"),
    }
    room.read(&Command::Delete { nsid: 7 }, 0, &[]);
    match room.reply() {
        Reply::Done => {}
        _ => panic!(rt; "more than done"),
    }
}

/// Returns an error with this count.
fn error(count: u64) -> ErrorEntry {
    ErrorEntry {
        count,
        status: Status::from_number(0x600b),
        phase: true,
        location: 0xffff,
        ..ErrorEntry::NONE
    }
}

#[test]
fn errors_by_their_bytes(rt: HostRuntime) {
    let errors = [error(2), error(1)];
    let reply = Reply::Errors(ErrorEntries::new(&errors, &[], 3));
    let mut data = [0xff; 256];
    reply.fill(0, &mut data);
    let counts = [data[0], data[64], data[128]];
    check_bytes(&rt, &counts, &[2, 1, 0], "counts");
    check_bytes(&rt, &data[12..15], &[0x17, 0xc0, 0xff], "an error");
    let mut rest = [0xff; 64];
    reply.fill(12, &mut rest);
    check_bytes(&rt, &rest, &data[12..76], "from 12 on");
    let mut room = ReplyRoom::new();
    assert!(rt; matches!(room.reply(), Reply::Done));
    let get_log = Command::GetLog(LogQuery {
        lid: 0x01,
        nsid: 7,
        offset: 0,
        dwords: DwordCount::from_zeros_based(63),
    });
    room.read(&get_log, 0, &data);
    check_errors(&rt, &room);
}

/// Checks that a reply has four errors, of which the first has count 2 and the last is empty.
fn check_errors(rt: &impl Abort, room: &ReplyRoom) {
    match room.reply() {
        Reply::Errors(entries) => {
            assert!(rt; entries.len() == 4);
            // The phase tag isn't read.
            let want = ErrorEntry {
                phase: false,
                ..error(2)
            };
            check_error(rt, &entries.get(0), &want);
            check_error(rt, &entries.get(3), &ErrorEntry::NONE);
        }
        _ => panic!(rt; "no entries"),
    }
}

fn check_error(rt: &impl Abort, found: &ErrorEntry, want: &ErrorEntry) {
    assert_eq!(rt; found, want);
}

/// Checks two fields of a controller in a reply.
fn check_controller(rt: &impl Abort, room: &ReplyRoom, vid: u16, elpe: u8) {
    match room.reply() {
        Reply::Controller(controller) => {
            let controller = controller.get();
            assert_eq!(rt; (controller.vid, controller.elpe), (vid, elpe));
        }
        _ => panic!(rt; "no controller"),
    }
}

/// Checks the temperature in a reply.
fn check_temperature(rt: &impl Abort, room: &ReplyRoom, want: u16) {
    match room.reply() {
        Reply::Smart(smart) => assert_eq!(rt; smart.get().temperature, want),
        _ => panic!(rt; "no health"),
    }
}

#[test]
fn a_room_keeps_one_reply_after_another(rt: HostRuntime) {
    let mut room = ReplyRoom::new();
    room.keep(&Reply::List(NamespaceIds::new(&[1, 3])));
    check_list(&rt, &room, &[1, 3]);
    let mut page = [0; 4096];
    page[0] = 1;
    page[262] = 3;
    room.read(&Command::IdentifyController, 0, &page);
    check_controller(&rt, &room, 1, 3);
    let mut data = [0; 512];
    data[1] = 0x2c;
    data[2] = 1;
    let get_log = Command::GetLog(LogQuery {
        lid: 0x02,
        nsid: 7,
        offset: 0,
        dwords: DwordCount::from_zeros_based(127),
    });
    room.read(&get_log, 0, &data);
    check_temperature(&rt, &room, 300);
    room.keep(&Reply::Number(5));
    assert!(rt; matches!(room.reply(), Reply::Number(5)));
}

#[test]
fn refusals_as_text(rt: HostRuntime) -> Result<(), Fail> {
    let code = StatusCode::NamespaceIsPrivate;
    let refusal = Refusal::from(code);
    check_number(&rt, u64::from(refusal.status.number()), 0x6119, "a status");
    check_number(&rt, refusal.specific, 0, "nothing specific");
    let text = format!(in rt.alloc(); "{code}, {refusal}")?;
    check_text(
        &rt,
        text.as_str(),
        "Namespace Is Private, Namespace Is Private",
        "a refusal",
    );
    Ok(())
}
