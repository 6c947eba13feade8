//! What Identify tells, as fields: of a controller, and of a namespace.

ghost use Rattle.std.specs.Prelude.{◌≡◌, IfOk, OnOk, string_bytes};
ghost use Rattle.nv_print.specs.Field.{fields_text, object_of};
ghost use Rattle.nv_print.specs.Records.{fields_of_id_ctrl, fields_of_id_ns, fields_of_lbaf};
ghost use Rattle.nv_print.specs.inner.Records.{texts_length};
ghost use Rattle.nv_print.specs.inner.Tokens.{Adds, data_tokens};

use crate::field::{Field, fields_text, write_object};
use crate::members::{id_ctrl_members, lbaf_members};
use json::Writer;
use nv_layout::{IdCtrl, IdNs, Lbaf};
use std::alloc::{AllocError, Global};

/// The fields of a controller ("Identify Controller data structure").
fn id_ctrl_fields<'a>(identity: &'a IdCtrl) -> [Field<'a>; 27]
    ensures value { result ≡ fields_of_id_ctrl identity.now }
    ensures texts { texts_length identity.now ≡ 324 }
{
    [
        Field::hexadecimal("vid", identity.vid as u64),
        Field::hexadecimal("ssvid", identity.ssvid as u64),
        Field::ascii("sn", &identity.sn),
        Field::ascii("mn", &identity.mn),
        Field::ascii("fr", &identity.fr),
        Field::decimal("rab", identity.rab as u64),
        Field::six_digits("ieee", identity.ieee),
        Field::hexadecimal("cmic", identity.cmic as u64),
        Field::decimal("mdts", identity.mdts as u64),
        Field::hexadecimal("cntlid", identity.cntlid as u64),
        Field::hexadecimal("ver", identity.ver as u64),
        Field::hexadecimal("oacs", identity.oacs as u64),
        Field::hexadecimal("frmw", identity.frmw as u64),
        Field::hexadecimal("lpa", identity.lpa as u64),
        Field::decimal("elpe", identity.elpe as u64),
        Field::decimal("npss", identity.npss as u64),
        Field::decimal("wctemp", identity.wctemp as u64),
        Field::decimal("cctemp", identity.cctemp as u64),
        Field::wide("tnvmcap", identity.tnvmcap),
        Field::wide("unvmcap", identity.unvmcap),
        Field::hexadecimal("sqes", identity.sqes as u64),
        Field::hexadecimal("cqes", identity.cqes as u64),
        Field::decimal("nn", identity.nn as u64),
        Field::hexadecimal("oncs", identity.oncs as u64),
        Field::hexadecimal("fna", identity.fna as u64),
        Field::hexadecimal("vwc", identity.vwc as u64),
        Field::ascii("subnqn", &identity.subnqn),
    ]
}

/// Returns the text of a controller.
pub(crate) fn id_ctrl_text(alloc: Global, identity: &IdCtrl) -> Result<String, AllocError>
    ensures value { IfOk result
        (λ t. string_bytes t ≡ fields_text (fields_of_id_ctrl identity.now)) }
    ensures texts { texts_length identity.now ≡ 324 }
{
    fields_text(alloc, &id_ctrl_fields(identity))
}

/// Writes the object of a controller.
pub(crate) fn write_id_ctrl(identity: &IdCtrl, out: &mut Writer) -> Result<(), AllocError>
    ensures value { OnOk result
        (Adds (data_tokens (object_of (fields_of_id_ctrl identity.now))) out.old out.new) }
    ensures texts { texts_length identity.now ≡ 324 }
{
    write_object(&id_ctrl_members(identity), out)
}

/// The fields of a namespace before its formats ("Identify Namespace data structure").
#[tactic(auto, unfolding(crate::specs::Records::fields_of_id_ns))]
pub(crate) fn id_ns_fields<'a>(namespace: &IdNs) -> [Field<'a>; 11]
    ensures { result ≡ fields_of_id_ns namespace.now }
{
    [
        Field::hexadecimal("nsze", namespace.nsze),
        Field::hexadecimal("ncap", namespace.ncap),
        Field::hexadecimal("nuse", namespace.nuse),
        Field::hexadecimal("nsfeat", namespace.nsfeat as u64),
        Field::decimal("nlbaf", namespace.nlbaf as u64),
        Field::hexadecimal("flbas", namespace.flbas as u64),
        Field::hexadecimal("mc", namespace.mc as u64),
        Field::hexadecimal("dpc", namespace.dpc as u64),
        Field::hexadecimal("dps", namespace.dps as u64),
        Field::hexadecimal("nmic", namespace.nmic as u64),
        Field::wide("nvmcap", namespace.nvmcap),
    ]
}

/// The fields of a format.
#[tactic(auto, unfolding(crate::specs::Records::fields_of_lbaf))]
pub(crate) fn lbaf_fields<'a>(format: &Lbaf) -> [Field<'a>; 3]
    ensures { result ≡ fields_of_lbaf format.now }
{
    [
        Field::decimal("ms", format.ms as u64),
        Field::decimal("lbads", format.lbads as u64),
        Field::decimal("rp", format.rp as u64),
    ]
}

/// Writes the object of a format.
pub(crate) fn write_lbaf(format: &Lbaf, out: &mut Writer) -> Result<(), AllocError>
    ensures { OnOk result
        (Adds (data_tokens (object_of (fields_of_lbaf format.now))) out.old out.new) }
{
    write_object(&lbaf_members(format), out)
}
