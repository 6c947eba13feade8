//! The commands that read and write features. Sections "Get Features command" and "Set Features
//! command".

ghost use Rattle.std.specs.Prelude.{◌≡◌};
ghost use Rattle.nv_command.specs.Features.{get_feature_command, set_feature_command};

use crate::command::Command;
use crate::transfer::{Fields, Form, ReplyKind, Transfer};
use nv_layout::{Sqe, ThreeBits, bits_of, to_bits};

/// The fields of a Get Features: `sel` selects a value of a feature, and `cdw11` is Command Dword
/// 11.
#[derive(Clone, Copy, Debug, PartialEq, Eq)]
pub struct FeatureQuery {
    pub fid: u8,
    pub sel: ThreeBits,
    pub nsid: u32,
    pub cdw11: u32,
}

/// The fields of a Set Features: the value for a feature, which is also saved if `save` is set.
#[derive(Clone, Copy, Debug, PartialEq, Eq)]
pub struct FeatureSetting {
    pub fid: u8,
    pub value: u32,
    pub save: bool,
    pub nsid: u32,
}

impl FeatureQuery {
    ghost use Rattle.std.specs.Prelude.{◌≡◌};
    ghost use Rattle.nv_command.specs.Features.{GetFeatureFits};
    ghost use Rattle.nv_command.specs.Form.{form, get_feature_fields};

    /// Returns the form of a Get Features command. Its reply is the value.
    pub(crate) fn form(self) -> Form
        ensures { result
            ≡ form (get_feature_fields self) self.nsid Transfer.NoData ReplyKind.Number }
    {
        let fields = Fields {
            opcode: 0x0a,
            cdw10: to_bits(self.fid as u32, 0, 8) + to_bits(self.sel.get() as u32, 8, 3),
            cdw11: self.cdw11,
            cdw12: 0,
            cdw13: 0,
        };
        Form {
            fields,
            nsid: self.nsid,
            transfer: Transfer::NoData,
            reply: ReplyKind::Number,
        }
    }

    /// States a law: each field fits its bits, as its type says. The call does nothing.
    pub(crate) fn fits(self)
        ensures { GetFeatureFits self }
    {
        self.sel.get();
    }
}

impl FeatureSetting {
    ghost use Rattle.std.specs.Prelude.{◌≡◌};
    ghost use Rattle.nv_command.specs.Features.{SetFeatureFits};
    ghost use Rattle.nv_command.specs.Form.{form, set_feature_fields};

    /// Returns the form of a Set Features command.
    pub(crate) fn form(self) -> Form
        ensures { result ≡ form (set_feature_fields self) self.nsid Transfer.NoData ReplyKind.Done }
    {
        let fields = Fields {
            opcode: 0x09,
            cdw10: to_bits(self.fid as u32, 0, 8) + to_bits(self.save as u32, 31, 1),
            cdw11: self.value,
            cdw12: 0,
            cdw13: 0,
        };
        Form {
            fields,
            nsid: self.nsid,
            transfer: Transfer::NoData,
            reply: ReplyKind::Done,
        }
    }

    /// States a law: each field fits its bits, as its type says. The call does nothing.
    pub(crate) fn fits(self)
        ensures { SetFeatureFits self }
    {}
}

/// Returns the command of a Get Features entry.
pub(crate) fn get_command<'a>(entry: &Sqe) -> Command<'a>
    ensures { result ≡ get_feature_command entry.now }
{
    Command::GetFeature(FeatureQuery {
        fid: bits_of(entry.cdw10, 0, 8) as u8,
        sel: ThreeBits::low(bits_of(entry.cdw10, 8, 3) as u8),
        nsid: entry.nsid,
        cdw11: entry.cdw11,
    })
}

/// Returns the command of a Set Features entry.
pub(crate) fn set_command<'a>(entry: &Sqe) -> Command<'a>
    ensures { result ≡ set_feature_command entry.now }
{
    Command::SetFeature(FeatureSetting {
        fid: bits_of(entry.cdw10, 0, 8) as u8,
        value: entry.cdw11,
        save: bits_of(entry.cdw10, 31, 1) == 1,
        nsid: entry.nsid,
    })
}
