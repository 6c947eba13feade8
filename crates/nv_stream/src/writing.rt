//! Writes whole texts, in as many writes as they take.

ghost use Rattle.std.specs.Prelude.{◌≡◌, false, not};
ghost use Rattle.nv_stream.specs.Streams.{WritesAll};

use crate::streams::Sink;

/// Writes a text, in as many writes as it takes. Returns false if a write fails; then the sink has
/// taken a beginning of the text.
pub fn write_all<S: Sink>(sink: &mut S, text: &[u8]) -> bool
    requires { (S.state sink.old).has_failed ≡ false }
    ensures text { WritesAll result (S.state sink.old).taken (S.state sink.new).taken text.now }
    ensures failure { (S.state sink.new).has_failed ≡ not result }
{
    let mut rest = text;
    while !rest.is_empty() {
        match sink.write(rest) {
            None | Some(0) => return false,
            Some(taken) => rest = &rest[taken..],
        }
    }
    true
}
