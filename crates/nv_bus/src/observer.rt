//! Who is shown the entries that a turn takes.

ghost use Rattle.std.specs.Prelude.{ℕ};
ghost use Rattle.nv_bus.specs.declared.exchange.Exchange.{Exchange};

use crate::exchange::Exchange;

/// Is shown each entry that a controller takes, once its completion is posted.
pub trait Observer {
    // What an observer says of a controller's entry that it was shown, with itself before and after
    // it.
    ghost was_shown: { Self → ℕ → Exchange → Self → Type 0 } = { λ _ _ _ _. Unit {0} };

    /// Shows an entry of a controller.
    fn show(&mut self, ctrl: u16, exchange: &Exchange)
        ensures { was_shown self.old ctrl exchange.now self.new };
}

/// An observer that looks at nothing.
#[derive(Drop)]
pub struct Unobserved;

impl Observer for Unobserved {
    fn show(&mut self, _ctrl: u16, _exchange: &Exchange) {}
}
