//! What a file says about a health log.

/// The counters of the health log that the file sets. Section "SMART / Health Information".
#[derive(Clone, Copy, Debug, PartialEq, Eq)]
pub struct Counters {
    /// Thousands of 512 bytes that hosts read.
    pub data_units_read: u64,
    /// Thousands of 512 bytes that hosts wrote.
    pub data_units_written: u64,
    pub host_read_commands: u64,
    pub host_write_commands: u64,
    /// In minutes.
    pub controller_busy_time: u64,
    pub power_cycles: u64,
    pub power_on_hours: u64,
    pub unsafe_shutdowns: u64,
    pub media_errors: u64,
}

/// What the file says about the health log. Section "SMART / Health Information".
#[derive(Clone, Copy, Debug, PartialEq, Eq)]
pub struct SmartBase {
    /// The bits of the warnings.
    pub critical_warning: u8,
    /// The composite temperature in Kelvin.
    pub temperature: u16,
    /// In percent.
    pub avail_spare: u8,
    /// In percent.
    pub spare_thresh: u8,
    /// In percent; it may pass 100.
    pub percent_used: u8,
    pub counters: Counters,
    /// Minutes at a warning temperature.
    pub warning_temp_time: u32,
    /// Minutes at a critical temperature.
    pub critical_comp_time: u32,
    /// The temperature sensors, in kelvins. 0 means that there is no such sensor.
    pub sensors: [u16; 8],
}
