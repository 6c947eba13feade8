//! The options of the commands: their names, how they are written, and the values that they take.

ghost use Rattle.std.specs.Prelude.{◌≡◌};
ghost use Rattle.nv_line.specs.OptionName.{name_of};

use std::fmt;

/// An option of a command, by its long name.
#[derive(Clone, Copy, Debug, PartialEq, Eq)]
pub enum OptionName {
    NamespaceId,
    All,
    Force,
    Nsze,
    Ncap,
    Flbas,
    Dps,
    Nmic,
    Controllers,
    Lbaf,
    Ses,
    Pi,
    Pil,
    Ms,
    FeatureId,
    Sel,
    Cdw11,
    Value,
    Save,
    LogEntries,
    OutputFormat,
}

impl OptionName {
    /// Returns the long name.
    pub(crate) fn text<'a>(self) -> &'a str
        ensures { result.now ≡ name_of self }
    {
        match self {
            OptionName::NamespaceId => "namespace-id",
            OptionName::All => "all",
            OptionName::Force => "force",
            OptionName::Nsze => "nsze",
            OptionName::Ncap => "ncap",
            OptionName::Flbas => "flbas",
            OptionName::Dps => "dps",
            OptionName::Nmic => "nmic",
            OptionName::Controllers => "controllers",
            OptionName::Lbaf => "lbaf",
            OptionName::Ses => "ses",
            OptionName::Pi => "pi",
            OptionName::Pil => "pil",
            OptionName::Ms => "ms",
            OptionName::FeatureId => "feature-id",
            OptionName::Sel => "sel",
            OptionName::Cdw11 => "cdw11",
            OptionName::Value => "value",
            OptionName::Save => "save",
            OptionName::LogEntries => "log-entries",
            OptionName::OutputFormat => "output-format",
        }
    }
}

impl fmt::Display for OptionName {
    ghost use Rattle.std.specs.Prelude.{Some};
    ghost use Rattle.nv_line.specs.OptionName.{name_of};

    ghost output = { λ name. Some (name_of name) };

    fn fmt<W: fmt::Write>(&self, f: &mut fmt::Formatter<W>) -> fmt::Result {
        f.write_str(self.text())
    }
}

/// An option that takes no value.
#[derive(Clone, Copy)]
pub struct FlagOption {
    pub name: OptionName,
    pub letter: char,
}

/// An option that takes a number from `least` to `most`.
#[derive(Clone, Copy)]
pub struct NumberOption {
    pub name: OptionName,
    pub letter: char,
    pub least: u64,
    pub most: u64,
    /// Whether the NSID of the device path is the value if the option isn't given.
    pub takes_path: bool,
    /// The value if nothing else gives one.
    pub default: Option<u64>,
}

/// An option that takes a list of controller identifiers, and is required.
#[derive(Clone, Copy)]
pub struct ListOption {
    pub name: OptionName,
    pub letter: char,
}

/// An option that takes the name of an output format.
#[derive(Clone, Copy)]
pub struct FormatOption {
    pub name: OptionName,
    pub letter: char,
}

/// An option of a command.
#[derive(Clone, Copy)]
pub enum CommandOption {
    Flag(FlagOption),
    Number(NumberOption),
    List(ListOption),
    Format(FormatOption),
}
