//! The fields of records in the order of their keys, as JSON has them.

ghost use Rattle.std.specs.Prelude.{◌≡◌, codes};
ghost use Rattle.serde_json.specs.Data.{Data, member, no_members, put};
ghost use Rattle.nv_print.specs.Field.{members_of};
ghost use Rattle.nv_print.specs.Records.{fields_of_entry, fields_of_id_ctrl, fields_of_id_ns};
ghost use Rattle.nv_print.specs.Records.{fields_of_lbaf, fields_of_smart};
ghost use Rattle.nv_print.specs.inner.Records.{texts_length};
ghost use Rattle.nv_print.specs.inner.Tokens.{before};

use crate::field::Field;
use nv_layout::{ErrorEntry, IdCtrl, IdNs, Lbaf, Smart};

/// The fields of a controller.
pub(crate) fn id_ctrl_members<'a>(identity: &'a IdCtrl) -> [Field<'a>; 27]
    ensures value { members_of (fields_of_id_ctrl identity.now) ≡ before result no_members }
    ensures texts { texts_length identity.now ≡ 324 }
{
    [
        Field::decimal("cctemp", identity.cctemp as u64),
        Field::hexadecimal("cmic", identity.cmic as u64),
        Field::hexadecimal("cntlid", identity.cntlid as u64),
        Field::hexadecimal("cqes", identity.cqes as u64),
        Field::decimal("elpe", identity.elpe as u64),
        Field::hexadecimal("fna", identity.fna as u64),
        Field::ascii("fr", &identity.fr),
        Field::hexadecimal("frmw", identity.frmw as u64),
        Field::six_digits("ieee", identity.ieee),
        Field::hexadecimal("lpa", identity.lpa as u64),
        Field::decimal("mdts", identity.mdts as u64),
        Field::ascii("mn", &identity.mn),
        Field::decimal("nn", identity.nn as u64),
        Field::decimal("npss", identity.npss as u64),
        Field::hexadecimal("oacs", identity.oacs as u64),
        Field::hexadecimal("oncs", identity.oncs as u64),
        Field::decimal("rab", identity.rab as u64),
        Field::ascii("sn", &identity.sn),
        Field::hexadecimal("sqes", identity.sqes as u64),
        Field::hexadecimal("ssvid", identity.ssvid as u64),
        Field::ascii("subnqn", &identity.subnqn),
        Field::wide("tnvmcap", identity.tnvmcap),
        Field::wide("unvmcap", identity.unvmcap),
        Field::hexadecimal("ver", identity.ver as u64),
        Field::hexadecimal("vid", identity.vid as u64),
        Field::hexadecimal("vwc", identity.vwc as u64),
        Field::decimal("wctemp", identity.wctemp as u64),
    ]
}

/// The fields of a namespace: those before its formats, whose key is "lbafs", and those after.
pub(crate) fn id_ns_members<'a>(namespace: &IdNs) -> ([Field<'a>; 3], [Field<'a>; 8])
    ensures { (formats : Data)
        → put (codes "lbafs") formats (members_of (fields_of_id_ns namespace.now))
        ≡ before result.0 (member (codes "lbafs") formats (before result.1 no_members)) }
{
    (
        [
            Field::hexadecimal("dpc", namespace.dpc as u64),
            Field::hexadecimal("dps", namespace.dps as u64),
            Field::hexadecimal("flbas", namespace.flbas as u64),
        ],
        [
            Field::hexadecimal("mc", namespace.mc as u64),
            Field::hexadecimal("ncap", namespace.ncap),
            Field::decimal("nlbaf", namespace.nlbaf as u64),
            Field::hexadecimal("nmic", namespace.nmic as u64),
            Field::hexadecimal("nsfeat", namespace.nsfeat as u64),
            Field::hexadecimal("nsze", namespace.nsze),
            Field::hexadecimal("nuse", namespace.nuse),
            Field::wide("nvmcap", namespace.nvmcap),
        ],
    )
}

/// The fields of a format.
pub(crate) fn lbaf_members<'a>(format: &Lbaf) -> [Field<'a>; 3]
    ensures { members_of (fields_of_lbaf format.now) ≡ before result no_members }
{
    [
        Field::decimal("lbads", format.lbads as u64),
        Field::decimal("ms", format.ms as u64),
        Field::decimal("rp", format.rp as u64),
    ]
}

/// The fields of a health log.
pub(crate) fn smart_members<'a>(smart: &Smart) -> [Field<'a>; 25]
    ensures { members_of (fields_of_smart smart.now) ≡ before result no_members }
{
    [
        Field::decimal("avail_spare", smart.avail_spare as u64),
        Field::wide("controller_busy_time", smart.controller_busy_time),
        Field::decimal("critical_comp_time", smart.critical_comp_time as u64),
        Field::hexadecimal("critical_warning", smart.critical_warning as u64),
        Field::wide("data_units_read", smart.data_units_read),
        Field::wide("data_units_written", smart.data_units_written),
        Field::wide("host_read_commands", smart.host_read_commands),
        Field::wide("host_write_commands", smart.host_write_commands),
        Field::wide("media_errors", smart.media_errors),
        Field::wide("num_err_log_entries", smart.num_err_log_entries),
        Field::decimal("percent_used", smart.percent_used as u64),
        Field::wide("power_cycles", smart.power_cycles),
        Field::wide("power_on_hours", smart.power_on_hours),
        Field::decimal("spare_thresh", smart.spare_thresh as u64),
        Field::decimal("temperature", smart.temperature as u64),
        Field::decimal("temperature_sensor_1", smart.sensors[0] as u64),
        Field::decimal("temperature_sensor_2", smart.sensors[1] as u64),
        Field::decimal("temperature_sensor_3", smart.sensors[2] as u64),
        Field::decimal("temperature_sensor_4", smart.sensors[3] as u64),
        Field::decimal("temperature_sensor_5", smart.sensors[4] as u64),
        Field::decimal("temperature_sensor_6", smart.sensors[5] as u64),
        Field::decimal("temperature_sensor_7", smart.sensors[6] as u64),
        Field::decimal("temperature_sensor_8", smart.sensors[7] as u64),
        Field::wide("unsafe_shutdowns", smart.unsafe_shutdowns),
        Field::decimal("warning_temp_time", smart.warning_temp_time as u64),
    ]
}

/// The fields of an entry of an error log.
pub(crate) fn entry_members<'a>(entry: &ErrorEntry) -> [Field<'a>; 9]
    ensures { members_of (fields_of_entry entry.now) ≡ before result no_members }
{
    [
        Field::hexadecimal("cmdid", entry.cid as u64),
        Field::hexadecimal("cs", entry.specific),
        Field::decimal("error_count", entry.count),
        Field::hexadecimal("lba", entry.lba),
        Field::hexadecimal("nsid", entry.nsid as u64),
        Field::hexadecimal("parm_err_loc", entry.location as u64),
        Field::decimal("sqid", entry.sqid as u64),
        Field::hexadecimal("status_field", entry.status.number() as u64),
        Field::hexadecimal("vs", entry.vendor as u64),
    ]
}
