//! The paths of devices.

ghost use Rattle.std.specs.Prelude.{◌≡◌, ◌<◌, IfSome};
ghost use Rattle.nv_line.specs.Device.{controller_index, device_of};

use crate::value::decimal;

/// The greatest NSID.
pub const NSID_LIMIT: u64 = 0xffff_ffff;

/// A device: a controller, by its place in the subsystem's file, counted from 0, and possibly a
/// namespace.
#[derive(Clone, Copy, Debug, PartialEq, Eq)]
pub struct Device {
    pub controller: u16,
    pub nsid: Option<u32>,
}

/// Reads the controller X, which must be one of the subsystem's.
fn controller_index(text: &str, controllers: u16) -> Option<u16>
    ensures value { result ≡ controller_index controllers text.now }
    ensures known { IfSome result (λ x. x < controllers) }
{
    let value = decimal(text, 0, u16::MAX as u64)? as u16;
    if value < controllers {
        Some(value)
    } else {
        None
    }
}

/// Reads `/dev/nvmeX` or `/dev/nvmeXnY`.
pub(crate) fn read_device(text: &str, controllers: u16) -> Option<Device>
    ensures value { result ≡ device_of controllers text.now }
    ensures known { IfSome result (λ d. d.controller < controllers) }
{
    let address = text.strip_prefix("/dev/nvme")?;
    let (x, nsid) = match address.split_once('n') {
        Some((x, y)) => (x, Some(decimal(y, 1, NSID_LIMIT)? as u32)),
        None => (address, None),
    };
    let controller = controller_index(x, controllers)?;
    Some(Device { controller, nsid })
}
