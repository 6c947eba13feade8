//! The command words, each with its options: the table of all commands.

ghost use Rattle.std.specs.Prelude.{◌≡◌, Some};
ghost use Rattle.nv_line.specs.Options.{options_of};
ghost use Rattle.nv_line.specs.Verb.{verb_of, word_of};

use crate::device::NSID_LIMIT;
use crate::option::{
    CommandOption, FlagOption, FormatOption, ListOption, NumberOption, OptionName,
};

/// An NSID, which is required. Its default is the NSID in the path.
pub const NSID: NumberOption = NumberOption {
    name: OptionName::NamespaceId,
    letter: 'n',
    least: 0,
    most: NSID_LIMIT,
    takes_path: true,
    default: None,
};

/// The NSID at which a list begins.
pub const FIRST_NSID: NumberOption = NumberOption {
    name: OptionName::NamespaceId,
    letter: 'n',
    least: 1,
    most: NSID_LIMIT,
    takes_path: false,
    default: Some(1),
};

/// Whether a list has all allocated namespaces, and not only the active ones.
pub const ALL: FlagOption = FlagOption {
    name: OptionName::All,
    letter: 'a',
};

/// Whether a namespace may be allocated without being active.
pub const FORCE: FlagOption = FlagOption {
    name: OptionName::Force,
    letter: 'f',
};

/// The size of a namespace, in logical blocks.
pub const NSZE: NumberOption = NumberOption {
    name: OptionName::Nsze,
    letter: 's',
    least: 0,
    most: u64::MAX,
    takes_path: false,
    default: Some(0),
};

/// The capacity of a namespace, in logical blocks.
pub const NCAP: NumberOption = NumberOption {
    name: OptionName::Ncap,
    letter: 'c',
    ..NSZE
};

/// The formatted LBA size of a namespace.
pub const FLBAS: NumberOption = NumberOption {
    name: OptionName::Flbas,
    letter: 'f',
    most: 0xff,
    ..NSZE
};

/// The end-to-end data protection of a namespace.
pub const DPS: NumberOption = NumberOption {
    name: OptionName::Dps,
    letter: 'd',
    ..FLBAS
};

/// The multi-path and sharing of a namespace.
pub const NMIC: NumberOption = NumberOption {
    name: OptionName::Nmic,
    letter: 'm',
    ..FLBAS
};

/// The controllers to attach a namespace to, or to detach it from.
pub const CONTROLLERS: ListOption = ListOption {
    name: OptionName::Controllers,
    letter: 'c',
};

/// The format of a namespace, by its number.
pub const LBAF: NumberOption = NumberOption {
    name: OptionName::Lbaf,
    letter: 'l',
    least: 0,
    most: 0xf,
    takes_path: false,
    default: None,
};

/// The secure erase settings of a format.
pub const SES: NumberOption = NumberOption {
    name: OptionName::Ses,
    letter: 's',
    most: 0x7,
    ..NSZE
};

/// The protection information of a format.
pub const PI: NumberOption = NumberOption {
    name: OptionName::Pi,
    letter: 'i',
    ..SES
};

/// The location of the protection information of a format.
pub const PIL: NumberOption = NumberOption {
    name: OptionName::Pil,
    letter: 'p',
    most: 0x1,
    ..NSZE
};

/// The location of the metadata of a format.
pub const MS: NumberOption = NumberOption {
    name: OptionName::Ms,
    letter: 'm',
    ..PIL
};

/// The NSID of a feature. Its default is the NSID in the path, or else 0.
pub const FEATURE_NSID: NumberOption = NumberOption {
    default: Some(0),
    ..NSID
};

/// A feature identifier.
pub const FEATURE_ID: NumberOption = NumberOption {
    name: OptionName::FeatureId,
    letter: 'f',
    most: 0xff,
    ..LBAF
};

/// Which value of a feature is wanted.
pub const SEL: NumberOption = NumberOption {
    name: OptionName::Sel,
    ..SES
};

/// Command Dword 11 of a Get Features.
pub const CDW11: NumberOption = NumberOption {
    name: OptionName::Cdw11,
    letter: 'c',
    most: 0xffff_ffff,
    ..NSZE
};

/// The value to give a feature.
pub const VALUE: NumberOption = NumberOption {
    name: OptionName::Value,
    letter: 'v',
    most: 0xffff_ffff,
    ..LBAF
};

/// Whether the value is also saved.
pub const SAVE: FlagOption = FlagOption {
    name: OptionName::Save,
    letter: 's',
};

/// The NSID of a SMART log. Its default is the broadcast NSID.
pub const SMART_NSID: NumberOption = NumberOption {
    takes_path: false,
    default: Some(NSID_LIMIT),
    ..NSID
};

/// The number of entries of an error log.
pub const LOG_ENTRIES: NumberOption = NumberOption {
    name: OptionName::LogEntries,
    letter: 'e',
    least: 1,
    most: 0xffff_ffff,
    takes_path: false,
    default: Some(64),
};

/// The format of the answer.
pub const OUTPUT_FORMAT: FormatOption = FormatOption {
    name: OptionName::OutputFormat,
    letter: 'o',
};

/// All command words.
pub static VERBS: [Verb; 14] = [
    Verb::Of(DeviceVerb::IdCtrl),
    Verb::Of(DeviceVerb::IdNs),
    Verb::Of(DeviceVerb::ListNs),
    Verb::Of(DeviceVerb::CreateNs),
    Verb::Of(DeviceVerb::AttachNs),
    Verb::Of(DeviceVerb::DetachNs),
    Verb::Of(DeviceVerb::DeleteNs),
    Verb::Of(DeviceVerb::Format),
    Verb::Of(DeviceVerb::GetFeature),
    Verb::Of(DeviceVerb::SetFeature),
    Verb::Of(DeviceVerb::SmartLog),
    Verb::Of(DeviceVerb::ErrorLog),
    Verb::Of(DeviceVerb::Reset),
    Verb::List,
];

/// The options of a command that has no others.
static FORMAT_ALONE: [CommandOption; 1] = [CommandOption::Format(OUTPUT_FORMAT)];

static ID_NS: [CommandOption; 3] = [
    CommandOption::Number(NSID),
    CommandOption::Flag(FORCE),
    CommandOption::Format(OUTPUT_FORMAT),
];

static LIST_NS: [CommandOption; 3] = [
    CommandOption::Number(FIRST_NSID),
    CommandOption::Flag(ALL),
    CommandOption::Format(OUTPUT_FORMAT),
];

static CREATE_NS: [CommandOption; 5] = [
    CommandOption::Number(NSZE),
    CommandOption::Number(NCAP),
    CommandOption::Number(FLBAS),
    CommandOption::Number(DPS),
    CommandOption::Number(NMIC),
];

static ATTACHMENT: [CommandOption; 2] = [
    CommandOption::Number(NSID),
    CommandOption::List(CONTROLLERS),
];

static DELETE_NS: [CommandOption; 1] = [CommandOption::Number(NSID)];

static FORMAT: [CommandOption; 6] = [
    CommandOption::Number(NSID),
    CommandOption::Number(LBAF),
    CommandOption::Number(SES),
    CommandOption::Number(PI),
    CommandOption::Number(PIL),
    CommandOption::Number(MS),
];

static GET_FEATURE: [CommandOption; 4] = [
    CommandOption::Number(FEATURE_NSID),
    CommandOption::Number(FEATURE_ID),
    CommandOption::Number(SEL),
    CommandOption::Number(CDW11),
];

static SET_FEATURE: [CommandOption; 4] = [
    CommandOption::Number(FEATURE_NSID),
    CommandOption::Number(FEATURE_ID),
    CommandOption::Number(VALUE),
    CommandOption::Flag(SAVE),
];

static SMART_LOG: [CommandOption; 2] = [
    CommandOption::Number(SMART_NSID),
    CommandOption::Format(OUTPUT_FORMAT),
];

static ERROR_LOG: [CommandOption; 2] = [
    CommandOption::Number(LOG_ENTRIES),
    CommandOption::Format(OUTPUT_FORMAT),
];

static RESET: [CommandOption; 0] = [];

/// The word of a command that addresses one device.
#[derive(Clone, Copy, PartialEq, Eq)]
pub enum DeviceVerb {
    IdCtrl,
    IdNs,
    ListNs,
    CreateNs,
    AttachNs,
    DetachNs,
    DeleteNs,
    Format,
    GetFeature,
    SetFeature,
    SmartLog,
    ErrorLog,
    Reset,
}

/// A command word.
#[derive(Clone, Copy, PartialEq, Eq)]
pub enum Verb {
    /// The line names a device.
    Of(DeviceVerb),
    /// The line names no device: all controllers are asked.
    List,
}

impl Verb {
    /// Returns the word of the command in a script.
    pub fn word<'a>(self) -> &'a str
        ensures { result.now ≡ word_of self }
    {
        match self {
            Verb::Of(DeviceVerb::IdCtrl) => "id-ctrl",
            Verb::Of(DeviceVerb::IdNs) => "id-ns",
            Verb::Of(DeviceVerb::ListNs) => "list-ns",
            Verb::Of(DeviceVerb::CreateNs) => "create-ns",
            Verb::Of(DeviceVerb::AttachNs) => "attach-ns",
            Verb::Of(DeviceVerb::DetachNs) => "detach-ns",
            Verb::Of(DeviceVerb::DeleteNs) => "delete-ns",
            Verb::Of(DeviceVerb::Format) => "format",
            Verb::Of(DeviceVerb::GetFeature) => "get-feature",
            Verb::Of(DeviceVerb::SetFeature) => "set-feature",
            Verb::Of(DeviceVerb::SmartLog) => "smart-log",
            Verb::Of(DeviceVerb::ErrorLog) => "error-log",
            Verb::Of(DeviceVerb::Reset) => "reset",
            Verb::List => "list",
        }
    }

    /// Returns its options, in order.
    pub fn options(self) -> &'static [CommandOption]
        ensures { result.now ≡ options_of self }
    {
        match self {
            Verb::Of(DeviceVerb::IdCtrl) | Verb::List => FORMAT_ALONE.as_slice(),
            Verb::Of(DeviceVerb::IdNs) => ID_NS.as_slice(),
            Verb::Of(DeviceVerb::ListNs) => LIST_NS.as_slice(),
            Verb::Of(DeviceVerb::CreateNs) => CREATE_NS.as_slice(),
            Verb::Of(DeviceVerb::AttachNs | DeviceVerb::DetachNs) => ATTACHMENT.as_slice(),
            Verb::Of(DeviceVerb::DeleteNs) => DELETE_NS.as_slice(),
            Verb::Of(DeviceVerb::Format) => FORMAT.as_slice(),
            Verb::Of(DeviceVerb::GetFeature) => GET_FEATURE.as_slice(),
            Verb::Of(DeviceVerb::SetFeature) => SET_FEATURE.as_slice(),
            Verb::Of(DeviceVerb::SmartLog) => SMART_LOG.as_slice(),
            Verb::Of(DeviceVerb::ErrorLog) => ERROR_LOG.as_slice(),
            Verb::Of(DeviceVerb::Reset) => RESET.as_slice(),
        }
    }

    /// Returns the command of a word.
    pub fn of(word: &str) -> Option<Verb>
        ensures { result ≡ verb_of word.now }
    {
        VERBS.iter().copied().find(|verb| word == verb.word())
    }
}
