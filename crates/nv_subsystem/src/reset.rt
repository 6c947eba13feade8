//! The reset of a controller. Section "Controller Level Reset".

ghost use Rattle.std.specs.Prelude.{◌≡◌, ◌<◌, length};
ghost use Rattle.nv_subsystem.specs.inner.ControllerView.{Becomes};
ghost use Rattle.nv_model.specs.Step.{reset, with_restored};
ghost use Rattle.nv_model.specs.WellFormed.{IsWellFormed};

use crate::controller::Controller;
use crate::subsystem::Subsystem;

impl Controller {
    /// Restores each feature to its saved value, or to its default.
    fn reset(&mut self)
        ensures { Becomes with_restored self.old self.new }
    {
        self.values.restore(&self.rules);
    }
}

impl Subsystem {
    /// Resets a controller: each of its features is restored to its saved value, or to its default
    /// if none was saved. Nothing else changes. Sections "Controller Level Reset" and "Feature
    /// Values".
    pub fn reset(&mut self, ctrl: u16)
        requires { ctrl < length self.old.controllers }
        ensures state { self.new ≡ reset self.old ctrl }
        ensures well_formed { IsWellFormed self.old → IsWellFormed self.new }
    {
        let controller = &mut self.controllers[ctrl as usize];
        controller.reset();
    }
}
