//! Devices with their texts, which those of a controller share.

ghost use Rattle.std.specs.Prelude.{◌≡◌};
ghost use Rattle.nv_print.specs.Text.{printable};

use crate::device::ListedDevice;
use crate::printable::printable;

/// A device, and its texts as they are shown.
#[derive(Clone, Copy)]
pub(crate) struct DeviceTexts<'a> {
    pub(crate) device: &'a ListedDevice,
    pub(crate) serial: &'a str,
    pub(crate) model: &'a str,
    ghost serial_shown: { serial.now ≡ printable device.now.serial },
    ghost model_shown: { model.now ≡ printable device.now.model },
}

impl<'a> DeviceTexts<'a> {
    /// Finds the texts of a device.
    fn new(device: &'a ListedDevice) -> DeviceTexts<'a>
        ensures { result.device.now ≡ device.now }
    {
        DeviceTexts {
            device,
            serial: printable(&device.serial),
            model: printable(&device.model),
        }
    }

    /// Returns the texts of a device, which are those of the last one if it has the same bytes.
    pub(crate) fn of(device: &'a ListedDevice, last: Option<DeviceTexts<'a>>) -> DeviceTexts<'a>
        ensures { result.device.now ≡ device.now }
    {
        let Some(last) = last else {
            return DeviceTexts::new(device);
        };
        if last.device.serial != device.serial || last.device.model != device.model {
            return DeviceTexts::new(device);
        }
        DeviceTexts {
            device,
            serial: last.serial,
            model: last.model,
        }
    }
}
