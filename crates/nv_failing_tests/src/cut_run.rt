//! A run of a case's script, and what it left behind.

use crate::case::Case;
use crate::kept::Kept;
use nv_script::{Geometry, OverRead, OverWrite, RunEnd, run};
use std::alloc::{AllocError, Global};
use std::cmp;
use std::io::{self, Read};

/// A reader that returns a script in pieces of at most `most` bytes.
#[derive(Drop)]
struct Pieces<'a> {
    script: &'a [u8],
    most: usize,
}

impl<'a> Read for Pieces<'a> {
    fn read(&mut self, buf: &mut [u8]) -> io::Result<usize> {
        let count = cmp::min(cmp::min(self.most, self.script.len()), buf.len());
        buf[..count].copy_from_slice(&self.script[..count]);
        self.script = &self.script[count..];
        Ok(count)
    }
}

/// The size of a buffer that holds everything that a script writes to a stream, so that writes need
/// no memory.
const ROOM: usize = 0x2_0000;

/// How a run ended, the state of the first controller, and what the two streams took.
#[derive(Drop)]
pub struct CutRun {
    pub end: RunEnd,
    pub kept: Kept,
    out: Vec<u8>,
    messages: Vec<u8>,
}

impl CutRun {
    /// Runs a case's script. An error is one outside the run.
    pub(crate) fn of(alloc: Global, case: &Case) -> Result<CutRun, AllocError> {
        let Some(mut machine) = case.machine(alloc) else {
            return Err(AllocError);
        };
        let mut script = OverRead::new(Pieces {
            script: case.script.as_bytes(),
            most: case.most,
        });
        let mut out = OverWrite::new(Vec::with_capacity(alloc, ROOM)?);
        let mut messages = OverWrite::new(Vec::with_capacity(alloc, ROOM)?);
        let end = run(
            alloc,
            &mut machine,
            Geometry::default(),
            &mut script,
            &mut out,
            &mut messages,
        );
        Ok(CutRun {
            end,
            kept: Kept::of(&machine),
            out: out.into_inner(),
            messages: messages.into_inner(),
        })
    }

    /// Returns whether the streams took the texts of the first lines and nothing else.
    pub(crate) fn wrote(
        &self,
        alloc: Global,
        case: &Case,
        lines: usize,
    ) -> Result<bool, AllocError> {
        let mut out = String::new(alloc);
        let mut messages = String::new(alloc);
        for line in case.lines.iter().take(lines) {
            out.push_str(line.out.as_str())?;
            messages.push_str(line.message.as_str())?;
        }
        Ok(self.out.as_slice() == out.as_bytes() && self.messages.as_slice() == messages.as_bytes())
    }
}
