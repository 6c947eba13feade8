//! A namespace that is attached to a controller, as `list` shows it.

use nv_layout::{IdCtrl, IdNs};

/// A namespace that is attached to a controller, as `list` shows it.
#[derive(Clone, Copy, Debug, PartialEq, Eq)]
pub struct ListedDevice {
    /// The place of the controller in the subsystem's file, counted from 0.
    pub controller: u16,
    /// The namespace's identifier.
    pub nsid: u32,
    /// The controller's serial number.
    pub serial: [u8; 20],
    /// The controller's model number.
    pub model: [u8; 40],
    /// The namespace's size in bytes, or 2^64 - 1 if it is greater.
    pub bytes: u64,
    /// The size of a logical block in bytes, or 2^64 - 1 if it is greater.
    pub block_size: u64,
}

impl ListedDevice {
    ghost use Rattle.std.specs.Prelude.{◌≡◌};
    ghost use Rattle.nv_print.specs.Devices.{block_size_of, device_of};

    /// Returns the size of a logical block in the format in use.
    fn block_size_of(namespace: &IdNs) -> u64
        ensures { result ≡ block_size_of namespace.now }
    {
        let format = namespace.lbafs[usize::from(namespace.flbas % 16)];
        2u64.saturating_pow(u32::from(format.lbads))
    }

    /// Creates the device of a namespace that is attached to a controller, from their Identify
    /// data.
    pub fn new(controller: u16, nsid: u32, identity: &IdCtrl, namespace: &IdNs) -> ListedDevice
        ensures { result ≡ device_of controller nsid identity.now namespace.now }
    {
        let block_size = ListedDevice::block_size_of(namespace);
        ListedDevice {
            controller,
            nsid,
            serial: identity.sn,
            model: identity.mn,
            bytes: namespace.nsze.saturating_mul(block_size),
            block_size,
        }
    }
}
