//! The sources of scripts, and the sinks of their texts.

ghost use Rattle.std.specs.Prelude.{◌≡◌, ◌+◌, ◌^◌, ◌<◌, ◌≤◌, length, is_none, IfSome, unwrap_or};
ghost use Rattle.std.specs.Prelude.{false};
ghost use Rattle.nv_stream.specs.Streams.{read_size};
ghost use Rattle.nv_stream.specs.Streams.{Gives, IsFresh, SinkState, SourceState, Takes, is_end};
ghost use Rattle.nv_stream.specs.Streams.{is_failure};

use std::io::{Read, Write};

/// The greatest number of bytes that one read asks for.
pub const READ_SIZE: usize = 4096;

/// Provides bytes in pieces. A read that fails provides none.
pub trait Source {
    // What it provides, and how it ended.
    ghost state: { Self → SourceState };

    /// Reads bytes to the beginning of the buffer, and returns how many. 0 is the end, and `None`
    /// an error. The buffer has 1 to 4,096 bytes, and no read follows an end or an error.
    fn read(&mut self, buf: &mut [u8]) -> Option<usize>
        requires some { 0 < length buf.old }
        requires most { length buf.old ≤ read_size }
        requires not_failed { (state self.old).has_failed ≡ false }
        requires not_ended { (state self.old).has_ended ≡ false }
        requires room_for_call { (state self.old).calls + 1 < 2 ^ 64 }
        requires room_for_bytes { (state self.old).given + length buf.old < 2 ^ 64 }
        ensures bound { IfSome result (λ n. n ≤ length buf.new) }
        ensures bytes { Gives (state self.old).to_come (state self.new).to_come result buf.new }
        ensures failure { (state self.new).has_failed ≡ is_none result }
        ensures end { (state self.new).has_ended ≡ is_end result }
        ensures call { (state self.new).calls ≡ (state self.old).calls + 1 }
        ensures count { (state self.new).given ≡ (state self.old).given + unwrap_or result 0 }
        ensures last { (state self.new).last_given ≡ unwrap_or result 0 };
}

/// Takes bytes in pieces. A write that fails takes none.
pub trait Sink {
    // What it took, and whether it failed.
    ghost state: { Self → SinkState };

    /// Writes bytes from the beginning of `bytes`, and returns how many. 0 is a failure, and `None`
    /// an error. At least one byte is offered, and no write follows a failure or an error.
    fn write(&mut self, bytes: &[u8]) -> Option<usize>
        requires some { 0 < length bytes.now }
        requires not_failed { (state self.old).has_failed ≡ false }
        ensures bound { IfSome result (λ n. n ≤ length bytes.now) }
        ensures bytes { Takes (state self.old).taken (state self.new).taken result bytes.now }
        ensures failure { (state self.new).has_failed ≡ is_failure result };
}

/// A source over any reader of std. An error of the reader is its error, and the read isn't
/// repeated.
#[derive(Drop)]
pub struct OverRead<R> {
    reader: R,
    failed: bool,
    ended: bool,
    calls: u64,
    given: u64,
    last_given: u64,
}

impl<R: Read> OverRead<R> {
    pub fn new(reader: R) -> OverRead<R>
        ensures to_come { (⟦<OverRead<R> as Source>⟧.state result).to_come ≡ R.remaining reader }
        ensures fresh { IsFresh (⟦<OverRead<R> as Source>⟧.state result) }
    {
        OverRead {
            reader,
            failed: false,
            ended: false,
            calls: 0,
            given: 0,
            last_given: 0,
        }
    }
}

impl<R: Read> Source for OverRead<R> {
    ghost state = { λ s. record {
      to_come = R.remaining s.reader;
      has_failed = s.failed;
      has_ended = s.ended;
      calls = s.calls;
      given = s.given;
      last_given = s.last_given;
    } };

    fn read(&mut self, buf: &mut [u8]) -> Option<usize> {
        self.calls += 1;
        match self.reader.read(buf) {
            Ok(n) => {
                self.ended = n == 0;
                self.last_given = n as u64;
                self.given += self.last_given;
                Some(n)
            }
            Err(_) => {
                self.failed = true;
                self.last_given = 0;
                None
            }
        }
    }
}

/// A sink over any writer of std. An error of the writer is its error, and the write isn't
/// repeated.
#[derive(Drop)]
pub struct OverWrite<W> {
    writer: W,
    failed: bool,
}

impl<W: Write> OverWrite<W> {
    pub fn new(writer: W) -> OverWrite<W>
        ensures taken { (⟦<OverWrite<W> as Sink>⟧.state result).taken ≡ W.contents writer }
        ensures fresh { (⟦<OverWrite<W> as Sink>⟧.state result).has_failed ≡ false }
    {
        OverWrite {
            writer,
            failed: false,
        }
    }

    /// Returns the writer, with what it took.
    pub fn into_inner(self) -> W
        ensures { W.contents result ≡ (⟦<OverWrite<W> as Sink>⟧.state self).taken }
    {
        let OverWrite { writer, failed: _ } = self;
        writer
    }
}

impl<W: Write> Sink for OverWrite<W> {
    ghost state = { λ s. record { taken = W.contents s.writer; has_failed = s.failed } };

    fn write(&mut self, bytes: &[u8]) -> Option<usize> {
        match self.writer.write(bytes) {
            Ok(n) => {
                self.failed = n == 0;
                Some(n)
            }
            Err(_) => {
                self.failed = true;
                None
            }
        }
    }
}
