//! Readers and writers of the standard library as the streams of a run. They transfer pieces, end
//! and fail, and each call of a stream is one call of the reader or writer below it. In
//! `tests/test_faults.py`, each call fails in turn.

ghost use Rattle.std.specs.Prelude.{◌≤◌, length};

use crate::harness::{geometries, run_over};
use nv_script::{Geometry, OverRead, OverWrite, Retrying, RunEnd};
use nv_stream::{OverShared, SharedWriter, write_all};
use nv_subsystem::DEMO;
use std::alloc::Global;
use std::cmp;
use std::io::{self, BufWriter, ErrorKind, Read, Write};
use std::process::Abort;
use std::test::Fail;

/// What a reader or writer does in one call.
#[derive(Clone, Copy)]
enum Turn<'a> {
    /// The reader returns these bytes.
    Gives(&'a [u8]),
    /// The writer takes at most this many bytes.
    Takes(usize),
    /// The call fails, and so does a flush before it.
    Fails(ErrorKind),
}

/// An interrupted call.
const INTERRUPTED: Turn<'static> = Turn::Fails(ErrorKind::Interrupted);

/// A reader that has one turn for each call, and returns no bytes after the last turn.
#[derive(Drop)]
struct TurnReader<'a> {
    turns: &'a [Turn<'a>],
    calls: usize,
    given: usize,
}

impl<'a> TurnReader<'a> {
    fn new(turns: &'a [Turn<'a>]) -> TurnReader<'a> {
        TurnReader {
            turns,
            calls: 0,
            given: 0,
        }
    }
}

impl<'a> Read for TurnReader<'a> {
    fn read(&mut self, buf: &mut [u8]) -> io::Result<usize> {
        let turn = self.turns.get(self.calls).copied();
        self.calls = self.calls.saturating_add(1);
        match turn {
            Some(Turn::Gives(bytes)) => {
                let count = cmp::min(bytes.len(), buf.len());
                buf[..count].copy_from_slice(&bytes[..count]);
                self.given = self.given.saturating_add(count);
                Ok(count)
            }
            Some(Turn::Fails(kind)) => Err(io::Error::from(kind)),
            Some(Turn::Takes(_)) | None => Ok(0),
        }
    }
}

/// A writer that has one turn for each call, and takes everything after the last turn, up to 64
/// bytes in all.
#[derive(Drop)]
struct TurnWriter<'a> {
    turns: &'a [Turn<'a>],
    bytes: [u8; 64],
    len: usize,
    calls: usize,
    flushes: usize,
    ghost room: { len ≤ 64 },
}

impl<'a> TurnWriter<'a> {
    fn new(turns: &'a [Turn<'a>]) -> TurnWriter<'a> {
        TurnWriter {
            turns,
            bytes: [0; 64],
            len: 0,
            calls: 0,
            flushes: 0,
        }
    }

    /// Takes at most `most` bytes, and at most 64 bytes in all.
    fn take(&mut self, bytes: &[u8], most: usize) -> usize
        ensures { result ≤ length bytes.now }
    {
        let count = cmp::min(cmp::min(bytes.len(), most), 64 - self.len);
        self.bytes[self.len..self.len + count].copy_from_slice(&bytes[..count]);
        self.len += count;
        count
    }

    /// Checks the bytes that the writer has taken, and the number of calls.
    fn check(&self, rt: &impl Abort, want: (&str, usize)) {
        let (text, calls) = want;
        assert!(rt; &self.bytes[..self.len] == text.as_bytes());
        assert_eq!(rt; self.calls, calls);
    }
}

impl<'a> Write for TurnWriter<'a> {
    fn write(&mut self, buf: &[u8]) -> io::Result<usize> {
        let turn = self.turns.get(self.calls).copied();
        self.calls = self.calls.saturating_add(1);
        match turn {
            Some(Turn::Takes(most)) => Ok(self.take(buf, most)),
            Some(Turn::Fails(kind)) => Err(io::Error::from(kind)),
            Some(Turn::Gives(_)) => Ok(0),
            None => Ok(self.take(buf, 64)),
        }
    }

    fn flush(&mut self) -> io::Result<()> {
        self.flushes = self.flushes.saturating_add(1);
        match self.turns.get(self.calls) {
            Some(Turn::Fails(kind)) => Err(io::Error::from(*kind)),
            _ => Ok(()),
        }
    }
}

/// The turns of a reader, and the number of calls after which the run ends, with its end and its
/// output.
#[derive(Clone, Copy)]
struct Reads<'a> {
    turns: &'a [Turn<'a>],
    calls: usize,
    end: RunEnd,
    out: &'a str,
    messages: &'a str,
}

fn expect_reads(
    rt: &impl Abort,
    alloc: Global,
    file: &str,
    geometry: Geometry,
    row: &Reads<'_>,
) -> Result<(), Fail> {
    let mut reader = TurnReader::new(row.turns);
    let mut script = OverRead::new(&mut reader);
    let mut out = OverWrite::new(Vec::new(alloc));
    let mut messages = OverWrite::new(Vec::new(alloc));
    let end = run_over(alloc, file, geometry, &mut script, &mut out, &mut messages)?;
    assert!(rt; end == row.end);
    assert_eq!(rt; reader.calls, row.calls);
    assert!(rt; out.into_inner().as_slice() == row.out.as_bytes());
    assert!(rt; messages.into_inner().as_slice() == row.messages.as_bytes());
    Ok(())
}

#[test]
fn runs_only_the_lines_before_a_failing_read(rt: HostRuntime) -> Result<(), Fail> {
    let row = Reads {
        turns: &[
            Turn::Gives(b"list-ns /dev/nvme0\nlist-"),
            Turn::Gives(b"ns /dev/nvme0"),
            Turn::Fails(ErrorKind::Other),
        ],
        calls: 3,
        end: RunEnd::Read,
        out: "[   0]:0x1\n[   1]:0x3\n",
        messages: "",
    };
    for geometry in &geometries(rt.alloc())? {
        expect_reads(&rt, rt.alloc(), DEMO, *geometry, &row)?;
    }
    let second = DEMO.replace(rt.alloc(), "version = 1", "version = 2")?;
    expect_reads(&rt, rt.alloc(), second.as_str(), Geometry::default(), &row)
}

#[test]
fn reads_up_to_the_first_empty_piece_and_tries_none_again(rt: HostRuntime) -> Result<(), Fail> {
    for row in [
        Reads {
            turns: &[
                Turn::Gives(b"list-ns /dev/nvme0 "),
                Turn::Gives(b"-n 3"),
                Turn::Gives(b""),
                Turn::Gives(b"\nbogus\n"),
            ],
            calls: 3,
            end: RunEnd::Status(0),
            out: "[   0]:0x3\n",
            messages: "",
        },
        Reads {
            turns: &[
                Turn::Gives(b"list-ns /d"),
                Turn::Gives(b"ev/nvme0 -n 3\nbog"),
                Turn::Gives(b"us"),
                Turn::Gives(b""),
                Turn::Gives(b"\nlist-ns /dev/nvme0\n"),
            ],
            calls: 4,
            end: RunEnd::Status(1),
            out: "[   0]:0x3\n",
            messages: "line 2: usage error\n",
        },
        Reads {
            turns: &[
                Turn::Gives(b"list-ns /dev/nvme0 -n 3\nlist-ns"),
                INTERRUPTED,
                Turn::Gives(b" /dev/nvme0\n"),
            ],
            calls: 2,
            end: RunEnd::Read,
            out: "[   0]:0x3\n",
            messages: "",
        },
    ] {
        expect_reads(&rt, rt.alloc(), DEMO, Geometry::default(), &row)?;
    }
    Ok(())
}

/// The turns of both writers, and what they have taken, in how many calls, when a run of two lines
/// ends.
#[derive(Clone, Copy)]
struct Writes<'a> {
    out: &'a [Turn<'a>],
    messages: &'a [Turn<'a>],
    end: RunEnd,
    written: &'a str,
    writes: usize,
    said: &'a str,
    message_writes: usize,
}

fn expect_writes(
    rt: &impl Abort,
    alloc: Global,
    file: &str,
    geometry: Geometry,
    row: &Writes<'_>,
) -> Result<(), Fail> {
    let mut script = OverRead::new(b"list-ns /dev/nvme0\nbogus\n".as_slice());
    let mut out = OverWrite::new(TurnWriter::new(row.out));
    let mut messages = OverWrite::new(TurnWriter::new(row.messages));
    let end = run_over(alloc, file, geometry, &mut script, &mut out, &mut messages)?;
    assert!(rt; end == row.end);
    out.into_inner().check(rt, (row.written, row.writes));
    messages
        .into_inner()
        .check(rt, (row.said, row.message_writes));
    Ok(())
}

/// The output of the two lines, and the message for the second.
const LISTED: &str = "[   0]:0x1\n[   1]:0x3\n";

const MESSAGES: &str = "line 2: usage error\n";

/// A call that takes one byte.
const ONE: Turn<'static> = Turn::Takes(1);

#[test]
fn leaves_a_beginning_of_the_output(rt: HostRuntime) -> Result<(), Fail> {
    let second = DEMO.replace(rt.alloc(), "version = 1", "version = 2")?;
    for row in [
        Writes {
            out: &[
                ONE,
                ONE,
                ONE,
                ONE,
                ONE,
                ONE,
                ONE,
                Turn::Fails(ErrorKind::Other),
            ],
            messages: &[],
            end: RunEnd::OutWrite,
            written: "[   0]:",
            writes: 8,
            said: "",
            message_writes: 0,
        },
        Writes {
            out: &[ONE, ONE, ONE, ONE, ONE, ONE, ONE, Turn::Takes(0)],
            messages: &[],
            end: RunEnd::OutWrite,
            written: "[   0]:",
            writes: 8,
            said: "",
            message_writes: 0,
        },
    ] {
        for geometry in &geometries(rt.alloc())? {
            expect_writes(&rt, rt.alloc(), DEMO, *geometry, &row)?;
        }
        expect_writes(&rt, rt.alloc(), second.as_str(), Geometry::default(), &row)?;
    }
    Ok(())
}

#[test]
fn writes_the_rest_and_tries_no_failing_write_again(rt: HostRuntime) -> Result<(), Fail> {
    for row in [
        Writes {
            out: &[ONE, Turn::Takes(11)],
            messages: &[Turn::Takes(3)],
            end: RunEnd::Status(1),
            written: "[   0]:0x1\n[   1]:0x3\n",
            writes: 3,
            said: "line 2: usage error\n",
            message_writes: 2,
        },
        Writes {
            out: &[Turn::Takes(7), INTERRUPTED],
            messages: &[],
            end: RunEnd::OutWrite,
            written: "[   0]:",
            writes: 2,
            said: "",
            message_writes: 0,
        },
        Writes {
            out: &[Turn::Takes(7), Turn::Takes(0)],
            messages: &[],
            end: RunEnd::OutWrite,
            written: "[   0]:",
            writes: 2,
            said: "",
            message_writes: 0,
        },
        Writes {
            out: &[],
            messages: &[Turn::Takes(7), Turn::Fails(ErrorKind::Other)],
            end: RunEnd::MessageWrite,
            written: "[   0]:0x1\n[   1]:0x3\n",
            writes: 1,
            said: "line 2:",
            message_writes: 2,
        },
        Writes {
            out: &[],
            messages: &[Turn::Takes(7), Turn::Takes(0)],
            end: RunEnd::MessageWrite,
            written: "[   0]:0x1\n[   1]:0x3\n",
            writes: 1,
            said: "line 2:",
            message_writes: 2,
        },
    ] {
        expect_writes(&rt, rt.alloc(), DEMO, Geometry::default(), &row)?;
    }
    Ok(())
}

/// Returns a script of a line with 22 bytes and 100,000 bytes of comments.
fn line_and_comments(alloc: Global) -> Result<Vec<u8>, Fail> {
    let mut script = Vec::new(alloc);
    script.extend_from_slice(b"id-ns /dev/nvme0 -n 1\n")?;
    for _ in 0..5000 {
        script.extend_from_slice(b"# what stands here.\n")?;
    }
    Ok(script)
}

/// Returns how many bytes of this script a reader returned before a run ended whose first write
/// fails. The first piece has `first` bytes, and the others have 4,096.
fn given_before_a_failing_write(
    rt: &impl Abort,
    alloc: Global,
    first: usize,
) -> Result<usize, Fail> {
    let bytes = line_and_comments(alloc)?;
    assert!(rt; bytes.len() == 100_022 && first < 100_022);
    let mut turns = Vec::new(alloc);
    turns.push(Turn::Gives(&bytes[..first]))?;
    for piece in bytes[first..].chunks(4096) {
        turns.push(Turn::Gives(piece))?;
    }
    let mut reader = TurnReader::new(&turns);
    let mut script = OverRead::new(&mut reader);
    let mut out = OverWrite::new(TurnWriter::new(&[Turn::Fails(ErrorKind::Other)]));
    let mut messages = OverWrite::new(Vec::new(alloc));
    let plain = Geometry::default();
    let end = run_over(alloc, DEMO, plain, &mut script, &mut out, &mut messages)?;
    assert!(rt; end == RunEnd::OutWrite);
    out.into_inner().check(rt, ("", 1));
    assert!(rt; messages.into_inner().is_empty());
    Ok(reader.given)
}

/// If a write fails in a line of 22 bytes, at most 4,095 bytes after the line have been read: the
/// rest of the piece in which its newline came.
#[test]
fn reads_no_more_than_a_piece_past_a_failing_write(rt: HostRuntime) -> Result<(), Fail> {
    assert_eq!(rt; given_before_a_failing_write(&rt, rt.alloc(), 21)?, 4117);
    assert_eq!(rt; given_before_a_failing_write(&rt, rt.alloc(), 4096)?, 4096);
    Ok(())
}

#[test]
fn writes_again_after_interrupted_writes(rt: HostRuntime) -> Result<(), Fail> {
    let alloc = rt.alloc();
    let turns = [
        INTERRUPTED,
        Turn::Takes(7),
        INTERRUPTED,
        INTERRUPTED,
        Turn::Takes(64),
    ];
    let mut output = TurnWriter::new(&turns);
    let mut taken = TurnWriter::new(&turns);
    let mut script = OverRead::new(b"list-ns /dev/nvme0\nbogus\n".as_slice());
    let mut out = OverWrite::new(Retrying::new(&mut output));
    let mut messages = OverWrite::new(Retrying::new(&mut taken));
    let plain = Geometry::default();
    let end = run_over(alloc, DEMO, plain, &mut script, &mut out, &mut messages)?;
    assert!(rt; end == RunEnd::Status(1));
    output.check(&rt, (LISTED, 5));
    taken.check(&rt, (MESSAGES, 5));
    Ok(())
}

#[test]
fn repeats_a_write_that_is_interrupted_a_thousand_times(rt: HostRuntime) {
    let turns = [INTERRUPTED; 1000];
    let mut inner = TurnWriter::new(&turns);
    let mut writer = Retrying::new(&mut inner);
    match writer.write(b"abc") {
        Ok(count) => assert_eq!(rt; count, 3),
        Err(_) => assert!(rt; false),
    }
    inner.check(&rt, ("abc", 1001));
}

#[test]
fn tries_no_write_again_after_another_error(rt: HostRuntime) -> Result<(), Fail> {
    let turns = [
        INTERRUPTED,
        Turn::Fails(ErrorKind::PermissionDenied),
        Turn::Takes(64),
    ];
    let mut inner = TurnWriter::new(&turns);
    let mut writer = Retrying::new(&mut inner);
    match writer.write(b"abc") {
        Ok(_) => assert!(rt; false),
        Err(error) => assert!(rt; error.kind() == ErrorKind::PermissionDenied),
    }
    assert!(rt; writer.flush().is_ok());
    inner.check(&rt, ("", 2));
    assert_eq!(rt; inner.flushes, 1);
    Ok(())
}

#[test]
fn writes_what_it_takes_to_a_shared_writer(rt: HostRuntime) -> Result<(), Fail> {
    let turns = [Turn::Takes(2), Turn::Takes(64), Turn::Takes(1)];
    let mut inner = TurnWriter::new(&turns);
    {
        let shared = SharedWriter::new(BufWriter::with_capacity(rt.alloc(), 0, &mut inner)?);
        let mut first = OverShared::new(&shared);
        let mut second = OverShared::new(&shared);
        assert!(rt; write_all(&mut first, b"abc"));
        assert!(rt; write_all(&mut second, b"de"));
        assert!(rt; shared.flush());
    }
    inner.check(&rt, ("abcde", 4));
    assert_eq!(rt; inner.flushes, 1);
    Ok(())
}

#[test]
fn takes_nothing_after_a_failing_flush_of_a_shared_writer(rt: HostRuntime) -> Result<(), Fail> {
    let turns = [Turn::Takes(64), INTERRUPTED];
    let mut inner = TurnWriter::new(&turns);
    {
        let shared = SharedWriter::new(BufWriter::with_capacity(rt.alloc(), 0, &mut inner)?);
        let mut out = OverShared::new(&shared);
        let is_written = write_all(&mut out, b"abc");
        assert!(rt; !shared.flush());
        assert!(rt; is_written && !write_all(&mut out, b"de"));
        assert!(rt; !shared.flush());
    }
    inner.check(&rt, ("abc", 1));
    Ok(())
}
