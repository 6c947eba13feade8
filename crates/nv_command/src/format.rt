//! The command that formats a namespace. Section "Format NVM command".

ghost use Rattle.std.specs.Prelude.{◌≡◌};
ghost use Rattle.nv_command.specs.Format.{format_command};

use crate::command::Command;
use crate::transfer::{Form, ReplyKind, Transfer};
use nv_layout::{FourBits, Sqe, ThreeBits, bits_of, to_bits};

/// What a host asks of a format, by the names of its fields: a namespace gets the format `lbaf`.
#[derive(Clone, Copy, Debug, PartialEq, Eq)]
pub struct NewFormat {
    pub nsid: u32,
    pub lbaf: FourBits,
    pub mset: bool,
    pub pi: ThreeBits,
    pub pil: bool,
    pub ses: ThreeBits,
}

impl NewFormat {
    ghost use Rattle.std.specs.Prelude.{◌≡◌};
    ghost use Rattle.nv_command.specs.Form.{form, format_fields};
    ghost use Rattle.nv_command.specs.Format.{FormatFits};

    /// Returns the form of a Format NVM command.
    pub(crate) fn form(self) -> Form
        ensures { result ≡ form (format_fields self) self.nsid Transfer.NoData ReplyKind.Done }
    {
        let cdw10 = to_bits(self.lbaf.get() as u32, 0, 4)
            + to_bits(self.mset as u32, 4, 1)
            + to_bits(self.pi.get() as u32, 5, 3)
            + to_bits(self.pil as u32, 8, 1)
            + to_bits(self.ses.get() as u32, 9, 3);
        Form::new(0x80, cdw10, self.nsid, Transfer::NoData, ReplyKind::Done)
    }

    /// States a law: each field fits its bits, as its type says. The call does nothing.
    pub(crate) fn fits(self)
        ensures { FormatFits self }
    {
        self.lbaf.get();
        self.pi.get();
        self.ses.get();
    }
}

/// Returns the command of a Format NVM entry.
pub(crate) fn command<'a>(entry: &Sqe) -> Command<'a>
    ensures { result ≡ format_command entry.now }
{
    let cdw10 = entry.cdw10;
    Command::Format(NewFormat {
        nsid: entry.nsid,
        lbaf: FourBits::low(bits_of(cdw10, 0, 4) as u8),
        mset: bits_of(cdw10, 4, 1) == 1,
        pi: ThreeBits::low(bits_of(cdw10, 5, 3) as u8),
        pil: bits_of(cdw10, 8, 1) == 1,
        ses: ThreeBits::low(bits_of(cdw10, 9, 3) as u8),
    })
}
