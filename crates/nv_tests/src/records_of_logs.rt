//! The bytes of a log from any place on, and lists that are read and written in place.

use crate::checks::{check_bytes, check_number, check_text};
use nv_layout::*;
use std::process::Abort;
use std::test::Fail;

/// Writes pieces of a record at their places.
fn write_pieces(rt: &impl Abort, bytes: &mut [u8], pieces: &[(usize, &[u8])]) {
    for (at, piece) in pieces {
        assert!(rt; *at <= bytes.len() && piece.len() <= bytes.len() - *at);
        bytes[*at..*at + piece.len()].copy_from_slice(piece);
    }
}

/// Returns an error with this count.
fn error(count: u64) -> ErrorEntry {
    ErrorEntry {
        count,
        sqid: 0x0102,
        cid: 0x0304,
        status: Status::from_number(0x6115),
        phase: true,
        location: 0xffff,
        lba: 0x0102_0304_0506_0708,
        nsid: 0x1112_1314,
        vendor: 0x80,
        specific: 0x2122_2324_2526_2728,
    }
}

#[test]
fn entries_from_any_place(rt: HostRuntime) {
    let newest = [error(5), error(4)];
    let older = [error(3)];
    let entries = ErrorEntries::new(&newest, &older, 4);
    assert_eq!(rt; entries.len(), 4);
    for (index, count) in [(0, 5), (1, 4), (2, 3), (3, 0), (4, 0), (256, 0)] {
        check_number(&rt, entries.get(index).count, count, "a count");
    }
    let mut log = [0; 320];
    for (index, count) in [(0, 5), (1, 4), (2, 3)] {
        let mut bytes = [0; 64];
        error(count).put(&mut bytes);
        write_pieces(&rt, &mut log, &[(64 * index, &bytes)]);
    }
    for from in [0, 4, 60, 64, 68, 124, 128, 188, 192, 252, 256] {
        check_fill(&rt, &entries, from, &mut [0xff; 64], &log[from..from + 64]);
        check_fill(&rt, &entries, from, &mut [0xff; 4], &log[from..from + 4]);
    }
    check_fill(&rt, &entries, usize::MAX, &mut [0xff; 8], &[0; 8]);
}

/// Checks the bytes of errors from a place on.
fn check_fill(rt: &impl Abort, entries: &ErrorEntries, from: usize, out: &mut [u8], want: &[u8]) {
    entries.fill(from, out);
    check_bytes(rt, out, want, "errors");
}

#[test]
fn lists_where_they_stand(rt: HostRuntime) -> Result<(), Fail> {
    let mut list = NsList::new();
    let mut bytes = [0; 4096];
    write_pieces(&rt, &mut bytes, &[(0, &[1, 0, 0, 0, 4, 3, 2, 1])]);
    list.read(&bytes);
    assert!(rt; list.ids() == NamespaceIds::new(&[1, 0x0102_0304]));
    let mut out = [0xff; 4096];
    list.ids().put(&mut out);
    check_bytes(&rt, &out, &bytes, "written");
    let text = format!(in rt.alloc(); "{:?}", list.ids())?;
    check_text(&rt, text.as_str(), "[1, 16909060]", "a list");
    list.clear();
    assert!(rt; list.is_empty() && list.ids() != NamespaceIds::new(&[1]));
    Ok(())
}
