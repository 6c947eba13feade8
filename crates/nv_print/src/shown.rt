//! What a line shows, and its text and its JSON.

ghost use Rattle.std.specs.Prelude.{◌≡◌, ◌<◌, ◌≤◌, IfOk, OnOk, length, string_bytes, true};
ghost use Rattle.serde_json.specs.Written.{compact_text};
ghost use Rattle.nv_print.specs.Shown.{data_of, has_json, json_of, text_limit, text_of};
ghost use Rattle.nv_print.specs.inner.Tokens.{Adds, data_tokens};

use crate::device_list::DeviceList;
use crate::devices::{devices_text, write_devices};
use crate::identity::{id_ctrl_text, write_id_ctrl};
use crate::log_fields::{smart_text, write_smart};
use crate::logs::{entries_text, write_entries};
use crate::namespace::{namespace_text, write_namespace};
use crate::ns_list::{nsids_text, write_nsids};
use crate::select::Select;
use crate::sentence::{feature_set, feature_value, reset, success_line};
use json::Writer;
use nv_command::Borrowed;
use nv_host::Memory;
use nv_layout::{ErrorEntries, Feature, IdCtrl, IdNs, NamespaceIds, Smart};
use std::alloc::{AllocError, Global};

/// What a line shows.
#[derive(Drop)]
pub enum Shown<'a> {
    /// The data of a controller.
    Controller(Borrowed<'a, IdCtrl>),
    /// The data of a namespace.
    Namespace(Borrowed<'a, IdNs>),
    /// NSIDs, in ascending order.
    NsList(NamespaceIds<'a>),
    /// A health log.
    Smart(Borrowed<'a, Smart>),
    /// An error log, the newest entry first.
    Errors(ErrorEntries<'a>),
    /// Namespaces that are attached to controllers.
    Devices(DeviceList),
    /// A namespace was created.
    Created {
        nsid: u32,
    },
    /// A namespace was attached.
    Attached {
        nsid: u32,
    },
    /// A namespace was detached.
    Detached {
        nsid: u32,
    },
    /// A namespace was deleted.
    Deleted {
        nsid: u32,
    },
    /// A namespace was formatted.
    Formatted {
        nsid: u32,
    },
    /// A value of a feature.
    FeatureValue {
        feature: Feature,
        select: Select,
        value: u32,
    },
    /// A feature was set. Its value may also be saved.
    FeatureSet {
        feature: Feature,
        value: u32,
        save: bool,
    },
    /// A controller was reset.
    Reset,
}

impl Shown<'_> {
    /// Returns whether it has a JSON form.
    pub fn has_json(&self) -> bool
        ensures { result ≡ has_json self.now }
    {
        match self {
            Shown::Controller(_) => true,
            Shown::Namespace(_) => true,
            Shown::NsList(_) => true,
            Shown::Smart(_) => true,
            Shown::Errors(_) => true,
            Shown::Devices(_) => true,
            _ => false,
        }
    }
}

/// Returns the text of what a line shows, as a string.
#[tactic(auto, using(crate::proofs::Bounds::text_bounds))]
fn string_of(alloc: Global, shown: &Shown) -> Result<String, AllocError>
    ensures exact { IfOk result (λ t. string_bytes t ≡ text_of shown.now) }
    ensures bound { IfOk result (λ t. length (string_bytes t) ≤ text_limit shown.now) }
{
    match shown {
        Shown::Controller(identity) => id_ctrl_text(alloc, identity.get()),
        Shown::Namespace(namespace) => namespace_text(alloc, namespace.get()),
        Shown::NsList(nsids) => nsids_text(alloc, nsids.as_slice()),
        Shown::Smart(smart) => smart_text(alloc, smart.get()),
        Shown::Errors(entries) => entries_text(alloc, entries),
        Shown::Devices(devices) => devices_text(alloc, devices.as_slice()),
        Shown::Created { nsid } => success_line(alloc, "create-ns: Success, created nsid:", *nsid),
        Shown::Attached { nsid } => success_line(alloc, "attach-ns: Success, nsid:", *nsid),
        Shown::Detached { nsid } => success_line(alloc, "detach-ns: Success, nsid:", *nsid),
        Shown::Deleted { nsid } => success_line(alloc, "delete-ns: Success, deleted nsid:", *nsid),
        Shown::Formatted { nsid } => success_line(alloc, "format: Success, nsid:", *nsid),
        Shown::FeatureValue {
            feature,
            select,
            value,
        } => feature_value(alloc, *feature, *select, *value),
        Shown::FeatureSet {
            feature,
            value,
            save,
        } => feature_set(alloc, *feature, *value, *save),
        Shown::Reset => reset(alloc),
    }
}

/// Returns the text of what a line shows.
pub fn text(alloc: Global, shown: &Shown) -> Result<Vec<u8>, Memory>
    ensures exact { IfOk result (λ bytes. bytes.items ≡ text_of shown.now) }
    ensures bound { IfOk result (λ bytes. length bytes.items ≤ text_limit shown.now) }
{
    let Ok(text) = string_of(alloc, shown) else {
        return Err(Memory);
    };
    Ok(text.into_bytes())
}

/// Writes what a line shows as JSON, or null if it has no JSON form.
#[tactic(auto, using(crate::proofs::Bounds::json_bounds))]
fn write(alloc: Global, shown: &Shown, out: &mut Writer) -> Result<(), AllocError>
    ensures exact { OnOk result (Adds (data_tokens (data_of shown.now)) out.old out.new) }
    ensures bound { OnOk result
        (length (compact_text (data_of shown.now)) < text_limit shown.now) }
{
    match shown {
        Shown::Controller(identity) => write_id_ctrl(identity.get(), out),
        Shown::Namespace(namespace) => write_namespace(namespace.get(), out),
        Shown::NsList(nsids) => write_nsids(nsids.as_slice(), out),
        Shown::Smart(smart) => write_smart(smart.get(), out),
        Shown::Errors(entries) => write_entries(entries, out),
        Shown::Devices(devices) => write_devices(alloc, devices.as_slice(), out),
        _ => out.null(),
    }
}

/// Returns room for the JSON of most values, in bytes.
fn room_of(shown: &Shown) -> usize {
    let room = match shown {
        Shown::NsList(nsids) => nsids.as_slice().len().saturating_mul(8),
        Shown::Devices(devices) => devices.as_slice().len().saturating_mul(128),
        Shown::Errors(entries) => entries.present().saturating_mul(128),
        _ => 960,
    };
    room.saturating_add(64)
}

/// Returns the JSON of what a line shows, without a newline.
fn compact(alloc: Global, shown: &Shown) -> Result<Vec<u8>, AllocError>
    ensures exact { IfOk result (λ bytes. bytes.items ≡ compact_text (data_of shown.now)) }
    ensures bound { IfOk result (λ bytes. length bytes.items < text_limit shown.now) }
{
    let mut out = Writer::new(Vec::with_capacity(alloc, room_of(shown))?);
    write(alloc, shown, &mut out)?;
    Ok(out.into_inner())
}

/// Returns the JSON of what a line shows, and a newline.
pub fn json(alloc: Global, shown: &Shown) -> Result<Vec<u8>, Memory>
    requires { has_json shown.now ≡ true }
    ensures exact { IfOk result (λ bytes. bytes.items ≡ json_of shown.now) }
    ensures bound { IfOk result (λ bytes. length bytes.items ≤ text_limit shown.now) }
{
    let Ok(mut bytes) = compact(alloc, shown) else {
        return Err(Memory);
    };
    let Ok(()) = bytes.push(b'\n') else {
        return Err(Memory);
    };
    Ok(bytes)
}
