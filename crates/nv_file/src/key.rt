//! The keys of the tables of a subsystem file.
ghost use Rattle.std.specs.Prelude.{◌≡◌};
ghost use Rattle.nv_file.specs.Names.{key_text};

use std::fmt;

/// A key of a table.
#[derive(Clone, Copy, Debug, PartialEq, Eq)]
pub enum Key {
    Version,
    Nn,
    Tnvmcap,
    Mc,
    Subnqn,
    Format,
    Controller,
    Namespace,
    Lbads,
    Ms,
    Rp,
    Cntlid,
    Sn,
    Mn,
    Fr,
    Vid,
    Ssvid,
    Rab,
    Ieee,
    Mdts,
    Elpe,
    Wctemp,
    Cctemp,
    Vwc,
    CryptoErase,
    Feature,
    Smart,
    Fid,
    Default,
    Saveable,
    Changeable,
    Over,
    Under,
    CriticalWarning,
    AvailSpare,
    SpareThresh,
    PercentUsed,
    Temperature,
    DataUnitsRead,
    DataUnitsWritten,
    HostReadCommands,
    HostWriteCommands,
    ControllerBusyTime,
    PowerCycles,
    PowerOnHours,
    UnsafeShutdowns,
    MediaErrors,
    WarningTempTime,
    CriticalCompTime,
    Sensors,
    Nsid,
    Bytes,
    Extended,
    Shared,
    Controllers,
}

impl Key {
    /// Returns the key as files and faults spell it.
    #[tactic(auto, unfolding(crate::specs::Names::key_text))]
    pub(crate) fn text(self) -> &'static str
        ensures { result.now ≡ key_text self }
    {
        match self {
            Key::Version => "version",
            Key::Nn => "nn",
            Key::Tnvmcap => "tnvmcap",
            Key::Mc => "mc",
            Key::Subnqn => "subnqn",
            Key::Format => "format",
            Key::Controller => "controller",
            Key::Namespace => "namespace",
            Key::Lbads => "lbads",
            Key::Ms => "ms",
            Key::Rp => "rp",
            Key::Cntlid => "cntlid",
            Key::Sn => "sn",
            Key::Mn => "mn",
            Key::Fr => "fr",
            Key::Vid => "vid",
            Key::Ssvid => "ssvid",
            Key::Rab => "rab",
            Key::Ieee => "ieee",
            Key::Mdts => "mdts",
            Key::Elpe => "elpe",
            Key::Wctemp => "wctemp",
            Key::Cctemp => "cctemp",
            Key::Vwc => "vwc",
            Key::CryptoErase => "crypto_erase",
            Key::Feature => "feature",
            Key::Smart => "smart",
            Key::Fid => "fid",
            Key::Default => "default",
            Key::Saveable => "saveable",
            Key::Changeable => "changeable",
            Key::Over => "over",
            Key::Under => "under",
            Key::CriticalWarning => "critical_warning",
            Key::AvailSpare => "avail_spare",
            Key::SpareThresh => "spare_thresh",
            Key::PercentUsed => "percent_used",
            Key::Temperature => "temperature",
            Key::DataUnitsRead => "data_units_read",
            Key::DataUnitsWritten => "data_units_written",
            Key::HostReadCommands => "host_read_commands",
            Key::HostWriteCommands => "host_write_commands",
            Key::ControllerBusyTime => "controller_busy_time",
            Key::PowerCycles => "power_cycles",
            Key::PowerOnHours => "power_on_hours",
            Key::UnsafeShutdowns => "unsafe_shutdowns",
            Key::MediaErrors => "media_errors",
            Key::WarningTempTime => "warning_temp_time",
            Key::CriticalCompTime => "critical_comp_time",
            Key::Sensors => "sensors",
            Key::Nsid => "nsid",
            Key::Bytes => "bytes",
            Key::Extended => "extended",
            Key::Shared => "shared",
            Key::Controllers => "controllers",
        }
    }
}

impl fmt::Display for Key {
    ghost use Rattle.std.specs.Prelude.{Some};
    ghost use Rattle.nv_file.specs.Names.{key_text};

    ghost output = { λ key. Some (key_text key) };

    fn fmt<W: fmt::Write>(&self, f: &mut fmt::Formatter<W>) -> fmt::Result {
        f.write_str(Key::text(*self))
    }
}
