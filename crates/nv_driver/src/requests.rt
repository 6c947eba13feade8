//! What a driver sends to a controller.

ghost use Rattle.std.specs.Prelude.{◌≡◌, ◌<◌, ℕ, length, slice_index_or};
ghost use Rattle.nv_driver.specs.Request.{Request};
ghost use Rattle.nv_driver.specs.inner.Submitting.{request_as};
ghost use Rattle.nv_driver.specs.UnderWay.{requests_in};

use crate::submitting::{HostData, Outgoing};
use nv_command::Command;
use nv_layout::Sqe;

/// Commands, or an entry, which is sent with another command identifier and data pointer, and the
/// host's bytes for it.
#[derive(Clone, Copy)]
pub enum Requests<'a, 'b> {
    Commands(&'a [Command<'b>]),
    Entry { entry: &'a Sqe, bytes: &'a [u8] },
}

impl<'a, 'b> Requests<'a, 'b> {
    /// Returns how many there are.
    pub(crate) fn len(self) -> usize
        ensures { (limit : ℕ) → result ≡ length (requests_in limit self.entry) }
    {
        match self {
            Requests::Commands(commands) => commands.len(),
            Requests::Entry { .. } => 1,
        }
    }

    /// Returns the one of this number.
    pub(crate) fn outgoing(self, number: usize) -> Outgoing<'a, 'b>
        requires { number < length (requests_in 0 self) }
        ensures { (limit : ℕ) (other : Request) → request_as result
            (slice_index_or (requests_in limit self.entry) number other).asked
            ≡ slice_index_or (requests_in limit self.entry) number other }
    {
        let commands = match self {
            Requests::Commands(commands) => commands,
            Requests::Entry { entry, bytes } => return Outgoing::of_entry(entry, bytes),
        };
        let command = &commands[number];
        Outgoing {
            entry: command.entry(0),
            transfer: command.transfer(),
            sends: HostData::Command(command),
        }
    }
}
