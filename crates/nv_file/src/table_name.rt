//! The tables of a subsystem file, and which keys each may have.
ghost use Rattle.std.specs.Prelude.{◌≡◌};
ghost use Rattle.nv_file.specs.Names.{feature_keys, keys_of, table_text};

use crate::key::Key;
use std::fmt;

/// A table, as faults name it.
#[derive(Clone, Copy, Debug, PartialEq, Eq)]
pub enum TableName {
    Top,
    Format,
    Controller,
    Feature,
    Smart,
    Namespace,
}

impl TableName {
    /// Returns the table's name as files and faults spell it.
    #[tactic(auto, unfolding(crate::specs::Names::table_text))]
    pub(crate) fn text(self) -> &'static str
        ensures { result.now ≡ table_text self }
    {
        match self {
            TableName::Top => "top",
            TableName::Format => "format",
            TableName::Controller => "controller",
            TableName::Feature => "feature",
            TableName::Smart => "smart",
            TableName::Namespace => "namespace",
        }
    }

    /// Returns the keys that the table may have.
    #[tactic(auto, unfolding(crate::specs::Names::keys_of))]
    pub(crate) fn keys(self) -> &'static [Key]
        ensures { result.now ≡ keys_of self }
    {
        match self {
            TableName::Top => &[
                Key::Version,
                Key::Nn,
                Key::Tnvmcap,
                Key::Mc,
                Key::Subnqn,
                Key::Format,
                Key::Controller,
                Key::Namespace,
            ],
            TableName::Format => &[Key::Lbads, Key::Ms, Key::Rp],
            TableName::Controller => &[
                Key::Cntlid,
                Key::Sn,
                Key::Mn,
                Key::Fr,
                Key::Vid,
                Key::Ssvid,
                Key::Rab,
                Key::Ieee,
                Key::Mdts,
                Key::Elpe,
                Key::Wctemp,
                Key::Cctemp,
                Key::Vwc,
                Key::CryptoErase,
                Key::Feature,
                Key::Smart,
            ],
            TableName::Feature => &[
                Key::Fid,
                Key::Default,
                Key::Saveable,
                Key::Changeable,
                Key::Over,
                Key::Under,
            ],
            TableName::Smart => &[
                Key::CriticalWarning,
                Key::AvailSpare,
                Key::SpareThresh,
                Key::PercentUsed,
                Key::Temperature,
                Key::DataUnitsRead,
                Key::DataUnitsWritten,
                Key::HostReadCommands,
                Key::HostWriteCommands,
                Key::ControllerBusyTime,
                Key::PowerCycles,
                Key::PowerOnHours,
                Key::UnsafeShutdowns,
                Key::MediaErrors,
                Key::WarningTempTime,
                Key::CriticalCompTime,
                Key::Sensors,
            ],
            TableName::Namespace => &[
                Key::Nsid,
                Key::Bytes,
                Key::Format,
                Key::Extended,
                Key::Shared,
                Key::Controllers,
            ],
        }
    }
}

/// Returns the keys that a feature may have in a version of the file.
#[tactic(auto, unfolding(crate::specs::Names::feature_keys))]
pub(crate) fn feature_keys(version: u8) -> &'static [Key]
    ensures { result.now ≡ feature_keys version }
{
    if version == 1 {
        &[Key::Fid, Key::Default, Key::Saveable, Key::Changeable]
    } else {
        TableName::Feature.keys()
    }
}

impl fmt::Display for TableName {
    ghost use Rattle.std.specs.Prelude.{Some};
    ghost use Rattle.nv_file.specs.Names.{table_text};

    ghost output = { λ name. Some (table_text name) };

    fn fmt<W: fmt::Write>(&self, f: &mut fmt::Formatter<W>) -> fmt::Result {
        f.write_str(TableName::text(*self))
    }
}
