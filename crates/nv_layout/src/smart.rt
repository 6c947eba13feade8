//! The health of a controller.

use crate::parts::{
    clear, put_u8, put_u16, put_u16s, put_u32, put_u128, read_u16s, u8_at, u16_at, u32_at, u128_at,
};

/// The SMART / Health Information log. Section "SMART / Health Information (Log Identifier 02h)".
#[derive(Clone, Copy, Debug, PartialEq, Eq)]
pub struct Smart {
    /// Critical Warning.
    pub critical_warning: u8,
    /// Composite Temperature, in kelvins.
    pub temperature: u16,
    /// Available Spare, in percent.
    pub avail_spare: u8,
    /// Available Spare Threshold, in percent.
    pub spare_thresh: u8,
    /// Percentage Used.
    pub percent_used: u8,
    /// Data Units Read, in thousands of 512 bytes.
    pub data_units_read: u128,
    /// Data Units Written, in thousands of 512 bytes.
    pub data_units_written: u128,
    /// Host Read Commands.
    pub host_read_commands: u128,
    /// Host Write Commands.
    pub host_write_commands: u128,
    /// Controller Busy Time, in minutes.
    pub controller_busy_time: u128,
    /// Power Cycles.
    pub power_cycles: u128,
    /// Power On Hours.
    pub power_on_hours: u128,
    /// Unsafe Shutdowns.
    pub unsafe_shutdowns: u128,
    /// Media and Data Integrity Errors.
    pub media_errors: u128,
    /// Number of Error Information Log Entries.
    pub num_err_log_entries: u128,
    /// Warning Composite Temperature Time, in minutes.
    pub warning_temp_time: u32,
    /// Critical Composite Temperature Time, in minutes.
    pub critical_comp_time: u32,
    /// Temperature Sensor 1 to Temperature Sensor 8, in kelvins.
    pub sensors: [u16; 8],
}

impl Smart {
    ghost use Rattle.std.specs.Prelude.{◌≡◌};
    ghost use Rattle.nv_layout.specs.Smart.{bytes_of_smart, smart_of_bytes};

    /// Writes the log's bytes.
    #[tactic(auto, unfolding(crate::specs::Smart::bytes_of_smart))]
    pub fn put(&self, out: &mut [u8; 512])
        ensures { out.new ≡ bytes_of_smart self.now }
    {
        clear(out);
        put_u8(out, 0, self.critical_warning);
        put_u16(out, 1, self.temperature);
        put_u8(out, 3, self.avail_spare);
        put_u8(out, 4, self.spare_thresh);
        put_u8(out, 5, self.percent_used);
        put_u128(out, 32, self.data_units_read);
        put_u128(out, 48, self.data_units_written);
        put_u128(out, 64, self.host_read_commands);
        put_u128(out, 80, self.host_write_commands);
        put_u128(out, 96, self.controller_busy_time);
        put_u128(out, 112, self.power_cycles);
        put_u128(out, 128, self.power_on_hours);
        put_u128(out, 144, self.unsafe_shutdowns);
        put_u128(out, 160, self.media_errors);
        put_u128(out, 176, self.num_err_log_entries);
        put_u32(out, 192, self.warning_temp_time);
        put_u32(out, 196, self.critical_comp_time);
        put_u16s(out, 200, &self.sensors);
    }

    /// Reads the log from its bytes.
    #[tactic(auto, unfolding(crate::specs::Smart::smart_of_bytes))]
    pub fn get(bytes: &[u8; 512]) -> Smart
        ensures { result ≡ smart_of_bytes bytes.now }
    {
        let mut sensors = [0; 8];
        read_u16s(bytes, 200, &mut sensors);
        Smart {
            critical_warning: u8_at(bytes, 0),
            temperature: u16_at(bytes, 1),
            avail_spare: u8_at(bytes, 3),
            spare_thresh: u8_at(bytes, 4),
            percent_used: u8_at(bytes, 5),
            data_units_read: u128_at(bytes, 32),
            data_units_written: u128_at(bytes, 48),
            host_read_commands: u128_at(bytes, 64),
            host_write_commands: u128_at(bytes, 80),
            controller_busy_time: u128_at(bytes, 96),
            power_cycles: u128_at(bytes, 112),
            power_on_hours: u128_at(bytes, 128),
            unsafe_shutdowns: u128_at(bytes, 144),
            media_errors: u128_at(bytes, 160),
            num_err_log_entries: u128_at(bytes, 176),
            warning_temp_time: u32_at(bytes, 192),
            critical_comp_time: u32_at(bytes, 196),
            sensors,
        }
    }
}
