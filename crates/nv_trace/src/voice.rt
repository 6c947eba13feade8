//! Writes lines to a sink, up to its first failure.

ghost use Rattle.std.specs.Prelude.{◌≡◌, false, true};
ghost use Rattle.nv_trace.specs.Said.{IsSaid};

use crate::event::Event;
use crate::line_text::LineText;
use crate::posted::Posted;
use crate::taken::TakenEntry;
use nv_bus::{Exchange, Observer};
use nv_stream::{Sink, write_all};

/// Writes lines to a sink. After the sink has failed, it writes nothing.
#[derive(Drop)]
pub(crate) struct Voice<S: Sink> {
    pub(crate) sink: S,
    is_silent: bool,
    ghost failed: { (S.state sink).has_failed ≡ is_silent },
}

impl<S: Sink> Voice<S> {
    pub(crate) fn new(sink: S) -> Voice<S>
        requires { (S.state sink).has_failed ≡ false }
        ensures { result.sink ≡ sink }
    {
        Voice {
            sink,
            is_silent: false,
        }
    }

    /// Returns whether the sink has failed.
    pub(crate) fn is_silent(&self) -> bool
        ensures { result ≡ (S.state self.now.sink).has_failed }
    {
        self.is_silent
    }

    /// Writes the line of an event.
    pub(crate) fn say<E: Event>(&mut self, event: &E)
        ensures line { (S.state self.old.sink).has_failed ≡ false
            → IsSaid (E.text event.now) (S.state self.old.sink) (S.state self.new.sink) }
        ensures silent { (S.state self.old.sink).has_failed ≡ true
            → self.new.sink ≡ self.old.sink }
    {
        if self.is_silent {
            return;
        }
        let mut line = LineText::new();
        event.put(&mut line);
        self.is_silent = !write_all(&mut self.sink, line.ended());
    }
}

impl<S: Sink> Observer for Voice<S> {
    ghost use Rattle.std.specs.Prelude.{[], ◌∷◌};
    ghost use Rattle.nv_trace.specs.Said.{SaysAll, exchange_texts};

    ghost was_shown = { λ v ctrl exchange w. SaysAll S.state (exchange_texts ctrl (exchange ∷ [])) v.sink w.sink };

    /// Writes a line of the entry and one of its completion.
    fn show(&mut self, ctrl: u16, exchange: &Exchange) {
        let entry = exchange.entry;
        self.say(&TakenEntry { ctrl, entry });
        let completion = exchange.completion;
        self.say(&Posted { ctrl, completion });
    }
}
