//! The command that reads logs. Section "Get Log Page command".

ghost use Rattle.std.specs.Prelude.{◌≡◌};
ghost use Rattle.nv_command.specs.Logs.{get_log_command};

use crate::command::Command;
use crate::dword_count::DwordCount;
use crate::log_page::LogPage;
use crate::transfer::{Fields, Form, Transfer};
use nv_layout::{Sqe, bits_of, to_bits};

/// The fields of a Get Log Page: `dwords` dwords of a log, from the byte at `offset` on.
#[derive(Clone, Copy, Debug, PartialEq, Eq)]
pub struct LogQuery {
    pub lid: u8,
    pub nsid: u32,
    pub offset: u64,
    pub dwords: DwordCount,
}

impl LogQuery {
    ghost use Rattle.std.specs.Prelude.{◌≡◌};
    ghost use Rattle.nv_command.specs.Form.{form, get_log_fields, log_data};
    ghost use Rattle.nv_command.specs.LogPage.{log_asked, log_kind};
    ghost use Rattle.nv_command.specs.Logs.{GetLogFits};

    /// Returns the form of a Get Log Page command.
    pub(crate) fn form(self) -> Form
        ensures { result ≡ form (get_log_fields self) self.nsid (log_data self.dwords)
            (log_kind (log_asked self.lid)) }
    {
        let numd = self.dwords.zeros_based();
        let fields = Fields {
            opcode: 0x02,
            cdw10: to_bits(self.lid as u32, 0, 8) + to_bits(numd, 16, 16),
            cdw11: bits_of(numd, 16, 16),
            cdw12: (self.offset % 0x1_0000_0000) as u32,
            cdw13: (self.offset / 0x1_0000_0000) as u32,
        };
        Form {
            fields,
            nsid: self.nsid,
            transfer: Transfer::ToHost(self.dwords.bytes()),
            reply: LogPage::asked(self.lid).kind(),
        }
    }

    /// States a law: each field fits its bits, as its type says. The call does nothing.
    pub(crate) fn fits(self)
        ensures { GetLogFits self }
    {
        self.dwords.zeros_based();
    }
}

/// Returns the command of a Get Log Page entry.
pub(crate) fn command<'a>(entry: &Sqe) -> Command<'a>
    ensures { result ≡ get_log_command entry.now }
{
    let numd = bits_of(entry.cdw10, 16, 16) + to_bits(entry.cdw11, 16, 16);
    Command::GetLog(LogQuery {
        lid: bits_of(entry.cdw10, 0, 8) as u8,
        nsid: entry.nsid,
        offset: u64::from(entry.cdw12) + u64::from(entry.cdw13) * 0x1_0000_0000,
        dwords: DwordCount::from_zeros_based(numd),
    })
}
