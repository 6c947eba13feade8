//! Whether a controller can be used.

ghost use Rattle.std.specs.Prelude.{◌≡◌};
ghost use Rattle.nv_register.specs.Readiness.{is_enabled, is_fatal, is_ready};

use crate::rings::Rings;

/// What a controller's EN, RDY and CFS say, and its rings if it is ready. Sections "Controller
/// Configuration" and "Controller Status".
#[derive(Drop)]
pub enum Readiness {
    /// EN is 0.
    Off,
    /// EN was set with values with which the controller can't start. It has a fatal status and is
    /// not ready.
    Failed,
    /// EN is 1, and the controller is ready.
    Ready {
        rings: Rings,
        /// Whether a turn set the fatal status.
        fatal: bool,
    },
}

impl Readiness {
    /// Returns whether EN is 1. Section "Controller Configuration".
    pub fn is_enabled(&self) -> bool
        ensures { result ≡ is_enabled self.now }
    {
        !matches!(self, Readiness::Off)
    }

    /// Returns whether RDY is 1. Section "Controller Status".
    pub fn is_ready(&self) -> bool
        ensures { result ≡ is_ready self.now }
    {
        matches!(self, Readiness::Ready { .. })
    }

    /// Returns whether CFS is 1. Section "Controller Status".
    pub fn is_fatal(&self) -> bool
        ensures { result ≡ is_fatal self.now }
    {
        match self {
            Readiness::Off => false,
            Readiness::Failed => true,
            Readiness::Ready { fatal, .. } => *fatal,
        }
    }
}
