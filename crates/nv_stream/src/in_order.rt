//! Streams that keep an order: what was written is flushed before more of a script is read, and
//! before a message is written.

ghost use Rattle.std.specs.Prelude.{◌≡◌, ◌≤◌, [], List, ℕ, IfSome, None, false, length};
ghost use Rattle.std.specs.Bool.{OnTrue};
ghost use Rattle.std.specs.Io.KnownBytes.{Keeps};
ghost use Rattle.nv_stream.specs.Streams.{IsPutOut, IsWritten, Takes, is_failure};

use crate::streams::{Sink, Source};
use std::cell::{Cell, RefCell};
use std::io::{BufWriter, Write};

/// A writer that may hold back what it took.
pub trait Buffered: Write {
    // What it took and hasn't written yet.
    ghost unwritten: { Self → List ℕ };

    /// Writes what it holds back, and flushes what it writes to. Returns whether that was done.
    fn put_out(&mut self) -> bool
        ensures bytes { Keeps (Self.contents self.old) (Self.contents self.new) }
        ensures out { OnTrue result (unwritten self.new ≡ []) };
}

impl<W: Write + Drop> Buffered for BufWriter<W> {
    ghost use Rattle.std.specs.Io.Buffered.{writer_buffer};

    ghost unwritten = { writer_buffer };

    fn put_out(&mut self) -> bool {
        self.flush().is_ok()
    }
}

/// A buffered writer, and whether a write or a flush of it has failed. Several streams share it.
#[derive(Drop)]
pub struct SharedWriter<W> {
    writer: RefCell<W>,
    failed: Cell<bool>,
}

impl<W: Buffered> SharedWriter<W> {
    pub fn new(writer: W) -> SharedWriter<W> {
        SharedWriter {
            writer: RefCell::new(writer),
            failed: Cell::new(false),
        }
    }

    /// Passes bytes to the writer. Returns how many it took, or `None` if it has failed.
    fn write(&self, bytes: &[u8]) -> Option<usize>
        ensures bound { IfSome result (λ n. n ≤ length bytes.now) }
        ensures written { IsWritten W.contents result bytes.now }
    {
        if self.failed.get() {
            return None;
        }
        let Ok(mut writer) = self.writer.try_borrow_mut() else {
            return None;
        };
        writer.write(bytes).ok()
    }

    /// Flushes the writer. Returns whether everything that it took was written.
    pub fn flush(&self) -> bool
        ensures { OnTrue result (IsPutOut W.contents W.unwritten) }
    {
        let is_put_out = match self.writer.try_borrow_mut() {
            Ok(mut writer) => writer.put_out(),
            Err(_) => false,
        };
        if !is_put_out {
            self.failed.set(true);
            return false;
        }
        !self.failed.get()
    }
}

/// A sink over a buffered writer. Its contract doesn't say what it took.
#[derive(Drop)]
pub struct OverShared<'a, W> {
    shared: &'a SharedWriter<W>,
    failed: bool,
}

impl<'a, W: Buffered> OverShared<'a, W> {
    pub fn new(shared: &'a SharedWriter<W>) -> OverShared<'a, W>
        ensures taken { (⟦<OverShared<'a, W> as Sink>⟧.state result).taken ≡ None }
        ensures fresh { (⟦<OverShared<'a, W> as Sink>⟧.state result).has_failed ≡ false }
    {
        OverShared {
            shared,
            failed: false,
        }
    }
}

impl<'a, W: Buffered> Sink for OverShared<'a, W> {
    ghost use Rattle.std.specs.Prelude.{None};

    ghost state = { λ s. record { taken = None; has_failed = s.failed } };

    fn write(&mut self, bytes: &[u8]) -> Option<usize>
        ensures bound { IfSome result (λ n. n ≤ length bytes.now) }
        ensures bytes { Takes None None result bytes.now }
        ensures failure { self.new.failed ≡ is_failure result }
        ensures written { IsWritten W.contents result bytes.now }
    {
        let taken = self.shared.write(bytes);
        self.failed = matches!(taken, None | Some(0));
        taken
    }
}

/// A source that flushes a writer before each read.
#[derive(Drop)]
pub struct SourceAfter<'a, R, W> {
    source: R,
    shared: &'a SharedWriter<W>,
}

impl<'a, R: Source, W: Buffered> SourceAfter<'a, R, W> {
    pub fn new(source: R, shared: &'a SharedWriter<W>) -> SourceAfter<'a, R, W>
        ensures { ⟦<SourceAfter<'a, R, W> as Source>⟧.state result ≡ R.state source }
    {
        SourceAfter { source, shared }
    }
}

impl<'a, R: Source, W: Buffered> Source for SourceAfter<'a, R, W> {
    ghost state = { λ s. R.state s.source };

    fn read(&mut self, buf: &mut [u8]) -> Option<usize> {
        let _ = self.shared.flush();
        self.source.read(buf)
    }
}

/// A sink that flushes a writer before each write.
#[derive(Drop)]
pub struct SinkAfter<'a, S, W> {
    sink: S,
    shared: &'a SharedWriter<W>,
}

impl<'a, S: Sink, W: Buffered> SinkAfter<'a, S, W> {
    pub fn new(sink: S, shared: &'a SharedWriter<W>) -> SinkAfter<'a, S, W>
        ensures { ⟦<SinkAfter<'a, S, W> as Sink>⟧.state result ≡ S.state sink }
    {
        SinkAfter { sink, shared }
    }
}

impl<'a, S: Sink, W: Buffered> Sink for SinkAfter<'a, S, W> {
    ghost state = { λ s. S.state s.sink };

    fn write(&mut self, bytes: &[u8]) -> Option<usize> {
        let _ = self.shared.flush();
        self.sink.write(bytes)
    }
}
