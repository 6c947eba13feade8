//! A script line by line, with what each line writes and leaves behind.

ghost use Rattle.std.specs.Prelude.{IfSome};
ghost use Rattle.nv_bus.specs.Bus.{IsBus};
ghost use Rattle.nv_controller.specs.Machine.{bus_of};

use crate::kept::Kept;
use nv_controller::Machine;
use nv_script::READ_SIZE;
use nv_subsystem::Subsystem;
use std::alloc::{AllocError, Global};

/// What a line writes to each of the two streams, and the state of the first controller after it.
#[derive(Drop)]
pub struct TriedLine {
    pub out: String,
    pub message: String,
    pub kept: Kept,
}

/// A script over the subsystem of a file, and its lines.
#[derive(Drop)]
pub struct Case {
    pub file: String,
    /// The state of the first controller before the first line.
    pub before: Kept,
    pub script: String,
    /// The greatest number of bytes of the script that one read returns.
    pub most: usize,
    pub lines: Vec<TriedLine>,
}

impl Case {
    /// Creates a case without lines, over a file whose first controller has this value of its write
    /// cache.
    pub(crate) fn new(alloc: Global, file: &str, cache: Option<u32>) -> Result<Case, AllocError> {
        Ok(Case {
            file: String::from_str(alloc, file)?,
            before: Kept {
                counts: (0, 0),
                cache,
            },
            script: String::new(alloc),
            most: READ_SIZE,
            lines: Vec::new(alloc),
        })
    }

    /// Adds a line, with what it writes and the state of the first controller after it.
    fn add(
        &mut self,
        line: &str,
        out: String,
        message: String,
        kept: Kept,
    ) -> Result<(), AllocError> {
        write!(self.script, "{line}\n")?;
        self.lines.push(TriedLine { out, message, kept })?;
        Ok(())
    }

    /// Adds a line that prints a text and doesn't change the write cache.
    pub(crate) fn prints(
        &mut self,
        alloc: Global,
        line: &str,
        text: &str,
        counts: (u64, u64),
    ) -> Result<(), AllocError> {
        let cache = self.kept(self.lines.len()).cache;
        self.sets(alloc, line, text, Kept { counts, cache })
    }

    /// Adds a line that prints a text and sets the write cache.
    pub(crate) fn sets(
        &mut self,
        alloc: Global,
        line: &str,
        text: &str,
        kept: Kept,
    ) -> Result<(), AllocError> {
        let out = format!(in alloc; "{text}\n")?;
        self.add(line, out, String::new(alloc), kept)
    }

    /// Adds a line that is refused with a status.
    pub(crate) fn refused(
        &mut self,
        alloc: Global,
        line: &str,
        status: &str,
        counts: (u64, u64),
    ) -> Result<(), AllocError> {
        let cache = self.kept(self.lines.len()).cache;
        let number = self.lines.len().saturating_add(1);
        let message = format!(in alloc; "line {number}: NVMe status: {status}\n")?;
        self.add(line, String::new(alloc), message, Kept { counts, cache })
    }

    /// Returns the state of the first controller after `lines` lines.
    pub(crate) fn kept(&self, lines: usize) -> Kept {
        match self.lines.iter().take(lines).last() {
            Some(line) => line.kept,
            None => self.before,
        }
    }

    /// Returns the status after the last line.
    pub(crate) fn status(&self) -> u8 {
        match self.lines.last() {
            Some(line) if line.message.is_empty() => 0,
            _ => 2,
        }
    }

    /// Returns the controllers of the subsystem after power on, or `None` if memory was refused.
    pub(crate) fn machine(&self, alloc: Global) -> Option<Machine>
        ensures { IfSome result (λ machine. IsBus (bus_of machine)) }
    {
        let subsystem = Subsystem::from_toml(alloc, self.file.as_bytes()).ok()?;
        Machine::new(alloc, subsystem).ok()
    }
}
