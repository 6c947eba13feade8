//! Says why lines of a script can't be read, and where the first fault of a subsystem file is. It
//! carries out nothing. The exit status is 1 if there is such a line or a fault.
#![tactic(auto)]

mod line;
mod place;
mod subsystem;

use nv_arguments::Arguments;
use nv_program::{NamedFiles, Stop, asked, exit_code, words_given};
use nv_stream::Retrying;
use std::io::{self, BufRead, BufReader, ErrorKind, Write};
use std::process::ExitCode;

/// The greatest length of a subsystem file, in bytes.
const MOST_BYTES: u64 = 1_048_576;

/// Reads the next line, with its newline if it has one. Returns whether there was a line.
fn read_line<R: BufRead>(input: &mut R, line: &mut Vec<u8>) -> Result<bool, Stop> {
    line.clear();
    match input.read_until(b'\n', line) {
        Ok(count) => Ok(count > 0),
        Err(error) => Err(Stop::of_fault(error, Stop::Read)),
    }
}

/// Writes a text and a newline to standard output.
fn write_line(rt: &HostRuntime, text: &str) -> Result<(), Stop> {
    let mut out = Retrying::new(io::writer(rt));
    match writeln!(out, "{text}") {
        Ok(()) => Ok(()),
        Err(_) => Err(Stop::Write),
    }
}

/// Explains each line of the script on standard input that can't be read for a subsystem with this
/// many controllers. Returns the exit status.
fn explain_script(rt: &HostRuntime, controllers: u16) -> Result<u8, Stop> {
    let alloc = rt.alloc();
    let mut input = match BufReader::new(alloc, rt.reader()) {
        Ok(input) => input,
        Err(error) => return Err(Stop::of_fault(error, Stop::Read)),
    };
    let mut line = Vec::new(alloc);
    let mut status = 0;
    for number in 1..u64::MAX {
        if !read_line(&mut input, &mut line)? {
            break;
        }
        if let Some(fault) = line::fault_in(alloc, &line, controllers)? {
            let text = format!(in alloc; "line {number}: {fault}")?;
            write_line(rt, &text)?;
            status = 1;
        }
    }
    Ok(status)
}

/// Explains the first fault of the subsystem file with this path. Returns the exit status.
fn explain_file(rt: &HostRuntime, path: &str) -> Result<u8, Stop> {
    let alloc = rt.alloc();
    let bytes = match rt.bytes_at(alloc, path, MOST_BYTES) {
        Ok(bytes) => bytes,
        Err(error) => return Err(Stop::of_fault(error, Stop::Unreadable)),
    };
    let Some(fault) = subsystem::fault_in(alloc, &bytes)? else {
        return Ok(0);
    };
    let text = format!(in alloc; "subsystem: {fault}")?;
    write_line(rt, &text)?;
    Ok(1)
}

/// Explains the subsystem file that the arguments name, if it has a fault, or else the script.
fn explain_as_asked(rt: &HostRuntime) -> Result<u8, Stop> {
    let given = words_given(rt)?;
    let words: Vec<&str> = given.iter().map(|word| word.as_str()).collect(rt.alloc())?;
    match asked(rt, words.as_slice()) {
        Ok((subsystem, _)) => explain_script(rt, subsystem.controllers()),
        Err(Stop::Subsystem(_)) => {
            let arguments = Arguments::read(rt.alloc(), words.as_slice())?;
            explain_file(rt, arguments.subsystem.unwrap_or(""))
        }
        Err(stop) => Err(stop),
    }
}

fn main(rt: HostRuntime) -> ExitCode {
    exit_code(&rt, "nvme-script", explain_as_asked(&rt))
}
