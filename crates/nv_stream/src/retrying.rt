//! A writer that repeats interrupted writes.

ghost use Rattle.std.specs.Prelude.{◌≡◌, ◌≢◌, IfErr};
ghost use Rattle.std.specs.Io.{WritesAtMost};
ghost use Rattle.std.specs.Io.KnownBytes.{Keeps, WriteAppends};
ghost use Rattle.std.specs.IoError.{error_kind};
ghost use Rattle.std.specs.declared.io.ErrorKind.TheVariants.{Interrupted};

use std::io::{self, ErrorKind, Write};

/// A writer that repeats a write if a signal interrupts it, and after no other error.
#[derive(Drop)]
pub struct Retrying<W> {
    writer: W,
}

impl<W: Write> Retrying<W> {
    pub fn new(writer: W) -> Retrying<W>
        ensures { ⟦<Retrying<W> as Write>⟧.contents result ≡ W.contents writer }
    {
        Retrying { writer }
    }
}

impl<W: Write> Write for Retrying<W> {
    ghost contents = { λ s. W.contents s.writer };

    fn write(&mut self, buf: &[u8]) -> io::Result<usize>
        ensures bound { WritesAtMost result buf.now }
        ensures bytes { WriteAppends (W.contents self.old.writer) (W.contents self.new.writer)
            result buf.now }
        ensures retried { IfErr result (λ e. error_kind e ≢ Interrupted) }
    {
        for _ in 0..u64::MAX {
            match self.writer.write(buf) {
                Ok(n) => return Ok(n),
                Err(error) => match error.kind() {
                    ErrorKind::Interrupted => {}
                    _ => return Err(error),
                },
            }
        }
        Err(io::Error::from(ErrorKind::TimedOut))
    }

    fn flush(&mut self) -> io::Result<()> {
        self.writer.flush()
    }
}
