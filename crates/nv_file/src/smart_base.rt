//! The health log of a controller of a file.
ghost use Rattle.std.specs.Prelude.{◌≡◌, ◌≤◌, ◌++◌, All, IfOk, option_map, slice_index, unwrap_or};
ghost use Rattle.toml.specs.View.{table_view};
ghost use Rattle.nv_file.specs.KeyChecks.{of_kind};
ghost use Rattle.nv_file.specs.TableChecks.{counters_checks, counters_value, eight, first_smart_checks};
ghost use Rattle.nv_file.specs.TableChecks.{smart_checks, smart_value};
ghost use Rattle.toml.specs.Data.{as_array, no_members};
ghost use Rattle.nv_file.specs.inner.Reading.{IsChecked, IsCheckedBeforeMemory, IsCheckedUnlessMemory};
ghost use Rattle.nv_model.specs.Logs.{zero_smart};
ghost use Rattle.nv_model.specs.Ranges.{IsCounters, IsSmart};

use crate::error::SubsystemError;
use crate::key::Key;
use crate::section::Section;
use crate::table_name::TableName;
use nv_model::{Counters, GREATEST_INTEGER, SmartBase};
use std::alloc::Global;
use toml::Table;

#[tactic(auto, using(crate::proofs::CheckLaws::faults), unfolding(crate::proofs::Opens::part))]
fn counters_of(table: &Table) -> Result<Counters, SubsystemError>
    ensures exact { IsChecked (λ c. c) (counters_checks (table_view table.now))
        (counters_value (table_view table.now)) result }
    ensures sound { IfOk result IsCounters }
{
    let section = Section {
        name: TableName::Smart,
        table,
    };
    let data_units_read = section.integer_or(Key::DataUnitsRead, 0, 0, GREATEST_INTEGER)?;
    let data_units_written = section.integer_or(Key::DataUnitsWritten, 0, 0, GREATEST_INTEGER)?;
    let host_read_commands = section.integer_or(Key::HostReadCommands, 0, 0, GREATEST_INTEGER)?;
    let host_write_commands = section.integer_or(Key::HostWriteCommands, 0, 0, GREATEST_INTEGER)?;
    let controller_busy_time = section.integer_or(Key::ControllerBusyTime, 0, 0, GREATEST_INTEGER)?;
    let power_cycles = section.integer_or(Key::PowerCycles, 0, 0, GREATEST_INTEGER)?;
    let power_on_hours = section.integer_or(Key::PowerOnHours, 0, 0, GREATEST_INTEGER)?;
    let unsafe_shutdowns = section.integer_or(Key::UnsafeShutdowns, 0, 0, GREATEST_INTEGER)?;
    let media_errors = section.integer_or(Key::MediaErrors, 0, 0, GREATEST_INTEGER)?;
    Ok(Counters {
        data_units_read,
        data_units_written,
        host_read_commands,
        host_write_commands,
        controller_busy_time,
        power_cycles,
        power_on_hours,
        unsafe_shutdowns,
        media_errors,
    })
}

/// Returns the number at an index, or 0 if the list ends before it.
pub(crate) fn number_at(numbers: &[u16], index: usize) -> u16
    ensures { result ≡ slice_index numbers.now index }
{
    numbers.get(index).copied().unwrap_or(0)
}

fn eight(numbers: &[u16]) -> [u16; 8]
    ensures exact { result ≡ eight numbers.now }
    ensures range { All (λ n. n ≤ 65535) result }
{
    [
        number_at(numbers, 0),
        number_at(numbers, 1),
        number_at(numbers, 2),
        number_at(numbers, 3),
        number_at(numbers, 4),
        number_at(numbers, 5),
        number_at(numbers, 6),
        number_at(numbers, 7),
    ]
}

#[tactic(auto, using(crate::proofs::CheckLaws::faults), unfolding(crate::proofs::Opens::whole))]
fn smart_of(alloc: Global, table: &Table) -> Result<SmartBase, SubsystemError>
    ensures exact { IsCheckedBeforeMemory (λ s. s)
        (first_smart_checks (table_view table.now)
        ++ of_kind TableName.Smart Key.Sensors as_array (table_view table.now))
        (smart_checks (table_view table.now)) (smart_value (table_view table.now)) result }
    ensures sound { IfOk result IsSmart }
{
    let section = Section {
        name: TableName::Smart,
        table,
    };
    let critical_warning = section.integer_or(Key::CriticalWarning, 0, 0, 255)? as u8;
    let avail_spare = section.integer_or(Key::AvailSpare, 0, 0, 255)? as u8;
    let spare_thresh = section.integer_or(Key::SpareThresh, 0, 0, 255)? as u8;
    let percent_used = section.integer_or(Key::PercentUsed, 0, 0, 255)? as u8;
    let temperature = section.integer_or(Key::Temperature, 0, 0, 65535)? as u16;
    let counters = counters_of(table)?;
    let warning_temp_time = section.integer_or(Key::WarningTempTime, 0, 0, 4294967295)? as u32;
    let critical_comp_time = section.integer_or(Key::CriticalCompTime, 0, 0, 4294967295)? as u32;
    let sensors = section.integers_in_range_or_none(alloc, Key::Sensors, 8, 65535)?;
    section.only_known()?;
    Ok(SmartBase {
        critical_warning,
        temperature,
        avail_spare,
        spare_thresh,
        percent_used,
        counters,
        warning_temp_time,
        critical_comp_time,
        sensors: eight(&sensors),
    })
}

fn zero_smart() -> SmartBase
    ensures exact { result ≡ zero_smart }
    ensures sound { IsSmart result }
{
    SmartBase {
        critical_warning: 0,
        temperature: 0,
        avail_spare: 0,
        spare_thresh: 0,
        percent_used: 0,
        counters: Counters {
            data_units_read: 0,
            data_units_written: 0,
            host_read_commands: 0,
            host_write_commands: 0,
            controller_busy_time: 0,
            power_cycles: 0,
            power_on_hours: 0,
            unsafe_shutdowns: 0,
            media_errors: 0,
        },
        warning_temp_time: 0,
        critical_comp_time: 0,
        sensors: [0; 8],
    }
}

/// Returns the health log of a table, or all zeros if there is none.
#[tactic(auto, using(crate::proofs::EmptyTables::empty_tables))]
pub(crate) fn smart_or_zero(
    alloc: Global,
    table: Option<&Table>,
) -> Result<SmartBase, SubsystemError>
    ensures exact { let m = unwrap_or (option_map (λ t. table_view t.now) table.entry) no_members in
        IsCheckedUnlessMemory (λ s. s) (smart_checks m) (smart_value m) result }
    ensures sound { IfOk result IsSmart }
{
    match table {
        Some(table) => {
            let smart = smart_of(alloc, table)?;
            Ok(smart)
        }
        None => Ok(zero_smart()),
    }
}
