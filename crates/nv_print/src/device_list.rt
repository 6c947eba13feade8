//! The devices that `list` shows.

ghost use Rattle.std.specs.Prelude.{◌≡◌, ◌∷◌, ◌++◌, [], OnErr, OnOk};

use crate::device::ListedDevice;
use std::alloc::{AllocError, Global};
use std::marker::Model;

/// Namespaces that are attached to controllers, in the order in which they are shown.
#[derive(Drop)]
pub struct DeviceList {
    devices: Vec<ListedDevice>,
}

impl Model for DeviceList {
    ghost use Rattle.std.specs.Prelude.{List};
    ghost use Rattle.nv_print.specs.declared.device.ListedDevice.{ListedDevice};

    ghost Value = { List ListedDevice };

    ghost view = { λ l. l.devices.items };
}

impl DeviceList {
    /// Creates an empty list.
    pub fn new(alloc: Global) -> DeviceList
        ensures { result ≡ [] }
    {
        DeviceList {
            devices: Vec::new(alloc),
        }
    }

    /// Adds a device at the end. If memory is refused, the list doesn't change.
    pub fn push(&mut self, device: ListedDevice) -> Result<(), AllocError>
        ensures value { OnOk result (self.new ≡ self.old ++ device ∷ []) }
        ensures err { OnErr result (self.new ≡ self.old) }
    {
        self.devices.push(device)?;
        Ok(())
    }

    /// Returns the devices in order.
    pub fn as_slice(&self) -> &[ListedDevice]
        ensures { result.now ≡ self.now }
    {
        self.devices.as_slice()
    }
}
