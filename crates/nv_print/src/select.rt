//! Which value of a feature is shown.

ghost use Rattle.std.specs.Prelude.{◌≡◌};
ghost use Rattle.nv_print.specs.Message.{select_of, select_text};

use nv_layout::ThreeBits;
use std::fmt;

/// Which value of a feature is shown. Section "Get Features command".
#[derive(Clone, Copy, Debug, PartialEq, Eq)]
pub enum Select {
    Current,
    Default,
    Saved,
    /// What the controller can do with the feature.
    Capabilities,
}

impl Select {
    /// Returns the value that a number selects, if it selects one.
    pub fn of(select: ThreeBits) -> Option<Select>
        ensures { result ≡ select_of select }
    {
        match select.get() {
            0 => Some(Select::Current),
            1 => Some(Select::Default),
            2 => Some(Select::Saved),
            3 => Some(Select::Capabilities),
            _ => None,
        }
    }

    /// Returns its name.
    pub(crate) fn text(self) -> &'static str
        ensures { result.now ≡ select_text self }
    {
        match self {
            Select::Current => "Current",
            Select::Default => "Default",
            Select::Saved => "Saved",
            Select::Capabilities => "Supported capabilities",
        }
    }
}

impl fmt::Display for Select {
    ghost use Rattle.std.specs.Prelude.{Some};
    ghost use Rattle.nv_print.specs.Message.{select_text};

    ghost output = { λ select. Some (select_text select) };

    fn fmt<W: fmt::Write>(&self, f: &mut fmt::Formatter<W>) -> fmt::Result {
        f.write_str(self.text())
    }
}
