//! A register write as a line.

ghost use Rattle.std.specs.Prelude.{◌≡◌, ◌++◌, take};
ghost use Rattle.nv_trace.specs.Lines.{place_text, register_name};

use crate::event::Event;
use crate::line_text::LineText;
use nv_register::Register;

/// A dword that was written to an offset of a controller's registers.
#[derive(Clone, Copy)]
pub(crate) struct Written {
    pub(crate) ctrl: u16,
    pub(crate) offset: u32,
    pub(crate) dword: u32,
}

/// Returns the name of a register. If it is one of two dwords, the name ends with `.low` or
/// `.high`. Section "Register Definition".
fn name_of(register: Register) -> &'static str
    ensures { result.now ≡ register_name register }
{
    match register {
        Register::CapLow => "CAP.low",
        Register::CapHigh => "CAP.high",
        Register::Vs => "VS",
        Register::Cc => "CC",
        Register::Csts => "CSTS",
        Register::Aqa => "AQA",
        Register::AsqLow => "ASQ.low",
        Register::AsqHigh => "ASQ.high",
        Register::AcqLow => "ACQ.low",
        Register::AcqHigh => "ACQ.high",
        Register::TailDoorbell => "SQ0TDBL",
        Register::HeadDoorbell => "CQ0HDBL",
    }
}

/// Adds the name of the register at an offset, or the offset.
fn put_place(line: &mut LineText, offset: u32)
    ensures { line.new ≡ take 319 (line.old ++ place_text offset) }
{
    match Register::at(offset) {
        Some(register) => line.add(name_of(register)),
        None => {
            line.add("0x");
            line.add_hex(u64::from(offset));
        }
    }
}

/// Its line is such as `nvme0 write CC=0x460001`.
impl Event for Written {
    ghost use Rattle.nv_trace.specs.Lines.{written_text};

    ghost text = { written_text };

    fn put(&self, line: &mut LineText) {
        let Written {
            ctrl,
            offset,
            dword,
        } = *self;
        line.add("nvme");
        line.add_decimal(ctrl);
        line.add(" write ");
        put_place(line, offset);
        line.add("=0x");
        line.add_hex(u64::from(dword));
    }
}
