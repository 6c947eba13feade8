//! Memory that is refused at any place: the texts of all earlier lines are complete, nothing of the
//! current line's text is written, and none, some or all of its commands have been executed.

use crate::case::Case;
use crate::cut_run::CutRun;
use nv_script::RunEnd;
use std::alloc::{AllocError, Global};
use std::{fmt, io};

/// What a run left behind.
#[derive(Clone, Copy, PartialEq, Eq)]
pub enum Left {
    /// All texts, and the status of the last line.
    Whole,
    /// The texts of some lines, if memory was refused.
    Beginning,
    /// Anything else.
    Other,
}

impl fmt::Display for Left {
    fn fmt<W: fmt::Write>(&self, f: &mut fmt::Formatter<W>) -> fmt::Result {
        f.write_str(match self {
            Left::Whole => "whole",
            Left::Beginning => "a beginning",
            Left::Other => "something else",
        })
    }
}

/// Returns whether a run left the texts of some first lines, but not of all lines, and the state
/// after them, or after some commands of the next line.
fn left_beginning(alloc: Global, case: &Case, run: &CutRun) -> Result<bool, AllocError> {
    for lines in 0..case.lines.len() {
        let before = case.kept(lines);
        let after = case.kept(lines.saturating_add(1));
        if run.kept.is_between(before, after) && run.wrote(alloc, case, lines)? {
            return Ok(true);
        }
    }
    Ok(false)
}

/// Runs a script, and checks what it left behind. An error is one outside the run.
pub(crate) fn run_case(alloc: Global, case: &Case) -> io::Result<Left> {
    let run = CutRun::of(alloc, case)?;
    let lines = case.lines.len();
    let is_right = match run.end {
        RunEnd::Status(status) => {
            status == case.status()
                && run.kept == case.kept(lines)
                && run.wrote(alloc, case, lines)?
        }
        RunEnd::Memory => left_beginning(alloc, case, &run)?,
        _ => false,
    };
    Ok(match run.end {
        _ if !is_right => Left::Other,
        RunEnd::Status(_) => Left::Whole,
        _ => Left::Beginning,
    })
}
