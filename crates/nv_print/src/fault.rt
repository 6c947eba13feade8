//! Messages about lines that went wrong.

ghost use Rattle.std.specs.Prelude.{◌≡◌, ◌≤◌, IfOk, length, string_bytes};
ghost use Rattle.nv_print.specs.Message.{message_of};

use nv_command::StatusCode;
use nv_host::Memory;
use nv_layout::Status;
use nv_line::LineFault;
use std::alloc::{AllocError, Global};
use std::fmt;

/// What is wrong with a line, and the line's number.
#[derive(Clone, Copy, Debug, PartialEq, Eq)]
pub struct Fault {
    /// The line's number, counted from 1.
    pub line: u64,
    pub cause: FaultCause,
}

/// What can be wrong with a line.
#[derive(Clone, Copy, Debug, PartialEq, Eq)]
pub enum FaultCause {
    /// It couldn't be understood.
    Line(LineFault),
    /// One of its commands was refused with a status.
    Refused(Status),
}

impl fmt::Display for FaultCause {
    ghost use Rattle.std.specs.Prelude.{Some};
    ghost use Rattle.nv_print.specs.Message.{cause_text};

    ghost output = { λ cause. Some (cause_text cause) };

    fn fmt<W: fmt::Write>(&self, f: &mut fmt::Formatter<W>) -> fmt::Result {
        match self {
            FaultCause::Line(fault) => write!(f, "{fault}"),
            FaultCause::Refused(status) => {
                let name = StatusCode::name_of(*status);
                write!(f, "NVMe status: {name} ({status})")
            }
        }
    }
}

/// Returns the message of a fault, as a string.
fn string_of(alloc: Global, fault: &Fault) -> Result<String, AllocError>
    ensures { IfOk result (λ t. string_bytes t ≡ message_of fault.now) }
{
    let Fault { line, cause } = *fault;
    // Room for most messages.
    let mut text = String::with_capacity(alloc, 128)?;
    write!(text, "line {line}: {cause}\n")?;
    Ok(text)
}

/// Returns the message of a fault.
#[tactic(auto, using(crate::proofs::MessageLengths::message_length))]
pub fn message(alloc: Global, fault: &Fault) -> Result<Vec<u8>, Memory>
    ensures exact { IfOk result (λ bytes. bytes.items ≡ message_of fault.now) }
    ensures bound { IfOk result (λ bytes. length bytes.items ≤ 65536) }
{
    let Ok(text) = string_of(alloc, fault) else {
        return Err(Memory);
    };
    Ok(text.into_bytes())
}
