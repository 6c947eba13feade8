//! What logs hold, as fields.

ghost use Rattle.std.specs.Prelude.{◌≡◌, IfOk, OnOk, string_bytes};
ghost use Rattle.nv_print.specs.Field.{fields_text, object_of};
ghost use Rattle.nv_print.specs.Records.{fields_of_entry, fields_of_smart};
ghost use Rattle.nv_print.specs.inner.Tokens.{Adds, data_tokens};

use crate::field::{Field, fields_text, write_object};
use crate::members::{entry_members, smart_members};
use json::Writer;
use nv_layout::{ErrorEntry, Smart};
use std::alloc::{AllocError, Global};

/// The fields of a health log ("SMART / Health Information"): how a controller is, what it has done
/// and what has happened to it, how warm it was and is.
fn smart_fields<'a>(smart: &Smart) -> [Field<'a>; 25]
    ensures { result ≡ fields_of_smart smart.now }
{
    [
        Field::hexadecimal("critical_warning", smart.critical_warning as u64),
        Field::decimal("temperature", smart.temperature as u64),
        Field::decimal("avail_spare", smart.avail_spare as u64),
        Field::decimal("spare_thresh", smart.spare_thresh as u64),
        Field::decimal("percent_used", smart.percent_used as u64),
        Field::wide("data_units_read", smart.data_units_read),
        Field::wide("data_units_written", smart.data_units_written),
        Field::wide("host_read_commands", smart.host_read_commands),
        Field::wide("host_write_commands", smart.host_write_commands),
        Field::wide("controller_busy_time", smart.controller_busy_time),
        Field::wide("power_cycles", smart.power_cycles),
        Field::wide("power_on_hours", smart.power_on_hours),
        Field::wide("unsafe_shutdowns", smart.unsafe_shutdowns),
        Field::wide("media_errors", smart.media_errors),
        Field::wide("num_err_log_entries", smart.num_err_log_entries),
        Field::decimal("warning_temp_time", smart.warning_temp_time as u64),
        Field::decimal("critical_comp_time", smart.critical_comp_time as u64),
        Field::decimal("temperature_sensor_1", smart.sensors[0] as u64),
        Field::decimal("temperature_sensor_2", smart.sensors[1] as u64),
        Field::decimal("temperature_sensor_3", smart.sensors[2] as u64),
        Field::decimal("temperature_sensor_4", smart.sensors[3] as u64),
        Field::decimal("temperature_sensor_5", smart.sensors[4] as u64),
        Field::decimal("temperature_sensor_6", smart.sensors[5] as u64),
        Field::decimal("temperature_sensor_7", smart.sensors[6] as u64),
        Field::decimal("temperature_sensor_8", smart.sensors[7] as u64),
    ]
}

/// Returns the text of a health log.
pub(crate) fn smart_text(alloc: Global, smart: &Smart) -> Result<String, AllocError>
    ensures { IfOk result (λ t. string_bytes t ≡ fields_text (fields_of_smart smart.now)) }
{
    fields_text(alloc, &smart_fields(smart))
}

/// Writes the object of a health log.
pub(crate) fn write_smart(smart: &Smart, out: &mut Writer) -> Result<(), AllocError>
    ensures { OnOk result
        (Adds (data_tokens (object_of (fields_of_smart smart.now))) out.old out.new) }
{
    write_object(&smart_members(smart), out)
}

/// The fields of an entry of an error log, but for its index ("Error Information").
#[tactic(auto, unfolding(crate::specs::Records::fields_of_entry))]
pub(crate) fn entry_fields<'a>(entry: &ErrorEntry) -> [Field<'a>; 9]
    ensures { result ≡ fields_of_entry entry.now }
{
    [
        Field::decimal("error_count", entry.count),
        Field::decimal("sqid", entry.sqid as u64),
        Field::hexadecimal("cmdid", entry.cid as u64),
        Field::hexadecimal("status_field", entry.status.number() as u64),
        Field::hexadecimal("parm_err_loc", entry.location as u64),
        Field::hexadecimal("lba", entry.lba),
        Field::hexadecimal("nsid", entry.nsid as u64),
        Field::hexadecimal("vs", entry.vendor as u64),
        Field::hexadecimal("cs", entry.specific),
    ]
}

/// Writes the object of an entry.
pub(crate) fn write_entry(entry: &ErrorEntry, out: &mut Writer) -> Result<(), AllocError>
    ensures { OnOk result
        (Adds (data_tokens (object_of (fields_of_entry entry.now))) out.old out.new) }
{
    write_object(&entry_members(entry), out)
}
