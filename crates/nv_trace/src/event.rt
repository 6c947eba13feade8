//! What has a line in a trace.

ghost use Rattle.std.specs.Prelude.{◌≡◌, [], take};

use crate::line_text::LineText;

/// Has a line in a trace.
pub(crate) trait Event {
    ghost use Rattle.std.specs.Prelude.{ℕ, List};

    // The text of its line.
    ghost text: { Self → List ℕ };

    /// Writes the text to an empty line.
    fn put(&self, line: &mut LineText)
        requires { line.old ≡ [] }
        ensures { line.new ≡ take 319 (text self.now) };
}
