//! What is shown of devices: a line in columns for each, or an object.

ghost use Rattle.std.specs.Prelude.{◌≡◌, ◌≤◌, ◌+◌, ◌*◌, ◌∷◌, ◌++◌, [], IfOk, OnOk, flat_map};
ghost use Rattle.std.specs.Prelude.{length, string_bytes};
ghost use Rattle.std.specs.List.{All};
ghost use Rattle.serde_json.specs.Written.{compact_text};
ghost use Rattle.nv_print.specs.Devices.{device_line, devices_data, devices_text, fields_of_device};
ghost use Rattle.nv_print.specs.Devices.{node_of};
ghost use Rattle.nv_print.specs.Field.{object_of};
ghost use Rattle.nv_print.specs.Text.{left, printable};
ghost use Rattle.nv_print.specs.inner.Tokens.{Adds, data_tokens};

use crate::column::{push_column, push_decimal, push_left, push_right, push_spaces};
use crate::device::ListedDevice;
use crate::device_texts::DeviceTexts;
use crate::field::{write_decimal, write_text};
use itoa::Buffer;
use json::Writer;
use std::alloc::{AllocError, Global};

/// Adds the name of the node of a controller's namespace to a text.
#[tactic(auto, using(crate::proofs::Fields::four_more))]
fn push_node(text: &mut String, controller: u16, nsid: u32) -> Result<(), AllocError>
    ensures { IfOk result
        (λ _. string_bytes text.new ≡ string_bytes text.old ++ node_of controller nsid) }
{
    text.push_str("/dev/nvme")?;
    push_decimal(text, u64::from(controller))?;
    text.push_str("n")?;
    push_decimal(text, u64::from(nsid))
}

/// Adds the name of the node at the left of a column of 18 characters, and a space.
#[tactic(auto, using(crate::proofs::Padding::node_more))]
fn push_node_column(text: &mut String, controller: u16, nsid: u32) -> Result<(), AllocError>
    ensures { IfOk result
        (λ _. string_bytes text.new ≡ string_bytes text.old
        ++ (left 18 (node_of controller nsid) ++ 32 ∷ [])) }
{
    let start = text.len();
    push_node(text, controller, nsid)?;
    let len = text.len() - start;
    push_spaces(text, 18usize.saturating_sub(len) + 1)
}

/// Adds the line of a device with these texts to a text.
#[tactic(auto, using(crate::proofs::DeviceLengths::device_line_length))]
fn push_device(
    text: &mut String,
    device: &ListedDevice,
    serial: &str,
    model: &str,
) -> Result<(), AllocError>
    requires serial { serial.now ≡ printable device.now.serial }
    requires model { model.now ≡ printable device.now.model }
    ensures value { IfOk result
        (λ _. string_bytes text.new ≡ string_bytes text.old ++ device_line device.now) }
    ensures bound { OnOk result (length (device_line device.now) ≤ 512) }
{
    let ListedDevice {
        controller,
        nsid,
        bytes,
        block_size,
        ..
    } = *device;
    push_node_column(text, controller, nsid)?;
    push_left(text, serial, 20)?;
    push_left(text, model, 40)?;
    push_right(text, u64::from(nsid), 10)?;
    push_column(text, bytes, 20)?;
    push_column(text, block_size, 6)?;
    text.push_str("\n")?;
    Ok(())
}

/// The text of devices.
#[tactic(auto, using(crate::proofs::Fields::flat_map_next))]
pub(crate) fn devices_text(alloc: Global, devices: &[ListedDevice]) -> Result<String, AllocError>
    ensures value { IfOk result (λ t. string_bytes t ≡ devices_text devices.now) }
    ensures bound { IfOk result (λ t. length (string_bytes t) ≤ 512 * length devices.now) }
{
    // Room for what most lines take.
    let mut text = String::with_capacity(alloc, devices.len().saturating_mul(128))?;
    let mut last = None;
    for device in devices {
        let texts = DeviceTexts::of(device, last);
        push_device(&mut text, device, texts.serial, texts.model)?;
        last = Some(texts);
    }
    Ok(text)
}

/// Writes the object of a device with these texts, whose members are in the order of their keys.
/// `node` and `digits` are room for the name of its node and for a number.
#[tactic(auto, using(crate::proofs::DeviceLengths::device_lengths))]
fn write_device(
    device: &ListedDevice,
    serial: &str,
    model: &str,
    node: &mut String,
    digits: &mut Buffer,
    out: &mut Writer,
) -> Result<(), AllocError>
    requires serial { serial.now ≡ printable device.now.serial }
    requires model { model.now ≡ printable device.now.model }
    ensures value { OnOk result
        (Adds (data_tokens (object_of (fields_of_device device.now))) out.old out.new) }
    ensures bound { OnOk result
        (length (compact_text (object_of (fields_of_device device.now))) ≤ 511) }
{
    let ListedDevice {
        controller,
        nsid,
        bytes,
        block_size,
        ..
    } = *device;
    node.clear();
    push_node(node, controller, nsid)?;
    out.begin_object()?;
    write_decimal("block_size", block_size, digits, out)?;
    write_decimal("bytes", bytes, digits, out)?;
    write_text("model", model, out)?;
    write_decimal("namespace", u64::from(nsid), digits, out)?;
    write_text("node", node, out)?;
    write_text("serial", serial, out)?;
    out.end_object()
}

/// Writes the objects of devices.
fn write_each(alloc: Global, devices: &[ListedDevice], out: &mut Writer) -> Result<(), AllocError>
    ensures value { OnOk result
        (Adds (flat_map (λ d. data_tokens (object_of (fields_of_device d))) devices.now)
        out.old out.new) }
    ensures bound { OnOk result
        (All (λ d. length (compact_text (object_of (fields_of_device d))) ≤ 511) devices.now) }
{
    // Room for the longest.
    let mut node = String::with_capacity(alloc, 25)?;
    let mut digits = Buffer::new();
    let mut last = None;
    for device in devices {
        let texts = DeviceTexts::of(device, last);
        write_device(
            device,
            texts.serial,
            texts.model,
            &mut node,
            &mut digits,
            out,
        )?;
        last = Some(texts);
    }
    Ok(())
}

/// Writes the object of devices.
pub(crate) fn write_devices(
    alloc: Global,
    devices: &[ListedDevice],
    out: &mut Writer,
) -> Result<(), AllocError>
    ensures value { OnOk result (Adds (data_tokens (devices_data devices.now)) out.old out.new) }
    ensures bound { OnOk result
        (length (compact_text (devices_data devices.now)) ≤ 65000 + 512 * length devices.now) }
{
    out.begin_object()?;
    out.key("devices")?;
    out.begin_array()?;
    write_each(alloc, devices, out)?;
    out.end_array()?;
    out.end_object()
}
