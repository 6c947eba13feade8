//! An entry that was taken, as a line.

ghost use Rattle.std.specs.Prelude.{◌≡◌, ◌++◌, ◌≤◌, length, take};
ghost use Rattle.nv_trace.specs.Lines.{command_name, field_text, fields_text};

use crate::event::Event;
use crate::line_text::LineText;
use nv_layout::Sqe;

/// An entry of a controller's submission queue.
#[derive(Clone, Copy)]
pub(crate) struct TakenEntry {
    pub(crate) ctrl: u16,
    pub(crate) entry: Sqe,
}

/// Returns the name of the command with an opcode. Section "Opcodes for Admin Commands".
fn command_of(opcode: u8) -> &'static str
    ensures { result.now ≡ command_name opcode }
{
    match opcode {
        0x02 => "Get Log Page",
        0x06 => "Identify",
        0x09 => "Set Features",
        0x0a => "Get Features",
        0x0d => "Namespace Management",
        0x15 => "Namespace Attachment",
        0x80 => "Format NVM",
        _ => "unknown",
    }
}

/// Adds a field such as ` cdw10=0x2`, or nothing if it is 0.
fn put_field(line: &mut LineText, name: &str, value: u64)
    requires { length line.old ≤ 319 }
    ensures field { line.new ≡ take 319 (line.old ++ field_text name.now value) }
    ensures len { length line.new ≤ 319 }
{
    if value == 0 {
        return;
    }
    line.add(" ");
    line.add(name);
    line.add("=0x");
    line.add_hex(value);
}

/// Adds the fields of an entry that are left out if they are 0.
fn put_fields(line: &mut LineText, entry: &Sqe)
    requires { length line.old ≤ 319 }
    ensures { line.new ≡ take 319 (line.old ++ fields_text entry.now) }
{
    put_field(line, "fuse", u64::from(entry.fuse));
    put_field(line, "psdt", u64::from(entry.psdt));
    put_field(line, "mptr", entry.mptr);
    put_field(line, "cdw10", u64::from(entry.cdw10));
    put_field(line, "cdw11", u64::from(entry.cdw11));
    put_field(line, "cdw12", u64::from(entry.cdw12));
    put_field(line, "cdw13", u64::from(entry.cdw13));
    put_field(line, "cdw14", u64::from(entry.cdw14));
    put_field(line, "cdw15", u64::from(entry.cdw15));
}

/// Its line is such as `nvme0 taken Identify (0x06) cid=0x0 nsid=0x0 prp1=0x4000 prp2=0x0
/// cdw10=0x2`. Other fields are left out if they are 0.
impl Event for TakenEntry {
    ghost use Rattle.nv_trace.specs.Lines.{taken_text};

    ghost text = { taken_text };

    fn put(&self, line: &mut LineText) {
        let TakenEntry { ctrl, entry } = *self;
        line.add("nvme");
        line.add_decimal(ctrl);
        line.add(" taken ");
        line.add(command_of(entry.opcode));
        line.add(" (0x");
        line.add_hex(u64::from(entry.opcode / 16));
        line.add_hex(u64::from(entry.opcode % 16));
        line.add(") cid=0x");
        line.add_hex(u64::from(entry.cid));
        line.add(" nsid=0x");
        line.add_hex(u64::from(entry.nsid));
        line.add(" prp1=0x");
        line.add_hex(entry.prp1);
        line.add(" prp2=0x");
        line.add_hex(entry.prp2);
        put_fields(line, &entry);
    }
}
