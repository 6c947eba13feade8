//! Reads operations from standard input, one per line, and answers each at once on standard output.
//!
//! `nv_benches` has examples of benches in Rattle instead, which call the crates directly.
#![tactic(auto)]

mod answer;
mod arguments;
mod commands;
mod conditions;
mod controllers;
mod device;
mod error;
mod memory;
mod operations;
mod records;
mod registers;
mod replies;
mod rings;
mod row;
mod sending;
mod session;
mod transfers;
mod watched;

use nv_stream::Retrying;
use session::Bench;
use std::alloc::{AllocError, Global};
use std::io::{self, BufRead, BufReader, ErrorKind, Write};
use std::process::ExitCode;
use thiserror::Error;

/// Why the program stopped before the end of its input.
#[derive(Clone, Copy, Debug, PartialEq, Eq, Error)]
enum BenchStop {
    #[error("read fault")]
    Read,
    #[error("write fault")]
    Write,
    #[error("out of memory")]
    Memory,
}

impl BenchStop {
    /// Returns the exit status.
    fn status(self) -> u8 {
        match self {
            BenchStop::Read => 4,
            BenchStop::Write => 5,
            BenchStop::Memory => 6,
        }
    }
}

impl From<AllocError> for BenchStop {
    fn from(_: AllocError) -> BenchStop {
        BenchStop::Memory
    }
}

/// Reads the next line, with its newline if it has one. Returns whether there was a line.
fn read_line<R: BufRead>(input: &mut R, line: &mut Vec<u8>) -> Result<bool, BenchStop> {
    line.clear();
    match input.read_until(b'\n', line) {
        Ok(count) => Ok(count > 0),
        Err(error) => match error.kind() {
            ErrorKind::OutOfMemory => Err(BenchStop::Memory),
            _ => Err(BenchStop::Read),
        },
    }
}

/// Returns the line without its newline.
fn without_newline(line: &[u8]) -> &[u8] {
    match line.split_last() {
        Some((b'\n', rest)) => rest,
        _ => line,
    }
}

/// Answers a line.
fn answer_line<W: Write>(
    alloc: Global,
    session: &mut Bench,
    line: &[u8],
    out: &mut W,
) -> Result<(), BenchStop> {
    match session.answer(alloc, without_newline(line))? {
        Some(answer) if out.write_all(answer.as_bytes()).is_err() => Err(BenchStop::Write),
        _ => Ok(()),
    }
}

/// Answers lines until the input ends.
fn answer_lines<R: BufRead, W: Write>(
    alloc: Global,
    session: &mut Bench,
    input: &mut R,
    out: &mut W,
) -> Result<(), BenchStop> {
    let mut line = Vec::new(alloc);
    for _ in 0..u64::MAX {
        if !read_line(input, &mut line)? {
            return Ok(());
        }
        answer_line(alloc, session, line.as_slice(), out)?;
    }
    Ok(())
}

/// Answers the lines on standard input.
fn answer_input(rt: &HostRuntime) -> Result<(), BenchStop> {
    let Ok(mut input) = BufReader::new(rt.alloc(), rt.reader()) else {
        return Err(BenchStop::Memory);
    };
    let mut out = Retrying::new(io::writer(rt));
    let mut session = Bench::new(rt.alloc())?;
    answer_lines(rt.alloc(), &mut session, &mut input, &mut out)
}

fn main(rt: HostRuntime) -> ExitCode {
    match answer_input(&rt) {
        Ok(()) => ExitCode::SUCCESS,
        Err(stop) => {
            let _ = eprintln!(rt; "nvme-bench: {stop}");
            ExitCode::from(stop.status())
        }
    }
}
