//! Lines with a mark before each.

ghost use Rattle.std.specs.Prelude.{◌≡◌, ◌<◌, ◌≤◌, IfSome, None, false, length, not, true};
ghost use Rattle.nv_stream.specs.Streams.{Takes, WritesAll, is_failure};
ghost use Rattle.nv_trace.specs.Marked.{IsMarked, IsOfOneLine, mark_at};

use nv_stream::{Sink, write_all};

/// The mark before each line.
const MARK: &[u8] = b"| ";

/// Writes the mark if a line begins. Returns whether that was done.
fn write_mark<S: Sink>(sink: &mut S, begins: bool) -> bool
    requires { (S.state sink.old).has_failed ≡ false }
    ensures mark { WritesAll result (S.state sink.old).taken (S.state sink.new).taken
        (mark_at begins) }
    ensures failure { (S.state sink.new).has_failed ≡ not result }
{
    if begins { write_all(sink, MARK) } else { true }
}

/// Returns how many of the bytes are of the first line, with its newline.
fn line_len(bytes: &[u8]) -> usize
    requires { 0 < length bytes.now }
    ensures some { 0 < result }
    ensures within { result ≤ length bytes.now }
    ensures of_one_line { IsOfOneLine result bytes.now }
{
    match bytes.iter().position(|byte| *byte == b'\n') {
        Some(newline) => newline + 1,
        None => bytes.len(),
    }
}

/// A sink that writes `| ` before each line that it is given. Its contract doesn't say what it
/// took.
#[derive(Drop)]
pub struct Marked<S: Sink> {
    pub(crate) sink: S,
    /// Whether the next byte begins a line.
    is_at_beginning: bool,
}

impl<S: Sink> Marked<S> {
    pub fn new(sink: S) -> Marked<S>
        ensures sink { result.sink ≡ sink }
        ensures begins { result.is_at_beginning ≡ true }
        ensures taken { (⟦<Marked<S> as Sink>⟧.state result).taken ≡ None }
        ensures fresh { (⟦<Marked<S> as Sink>⟧.state result).has_failed
            ≡ (S.state sink).has_failed }
    {
        Marked {
            sink,
            is_at_beginning: true,
        }
    }
}

impl<S: Sink> Sink for Marked<S> {
    ghost use Rattle.std.specs.Prelude.{None};

    ghost state = { λ s. record { taken = None; has_failed = (S.state s.sink).has_failed } };

    /// Takes at most the rest of the line. The mark doesn't count as taken.
    fn write(&mut self, bytes: &[u8]) -> Option<usize>
        requires some { 0 < length bytes.now }
        requires not_failed { (S.state self.old.sink).has_failed ≡ false }
        ensures bound { IfSome result (λ n. n ≤ length bytes.now) }
        ensures bytes { Takes None None result bytes.now }
        ensures failure { (S.state self.new.sink).has_failed ≡ is_failure result }
        ensures marked { IsMarked self.old.is_at_beginning self.new.is_at_beginning
            (S.state self.old.sink).taken (S.state self.new.sink).taken result bytes.now }
    {
        if !write_mark(&mut self.sink, self.is_at_beginning) {
            return None;
        }
        self.is_at_beginning = false;
        let taken = self.sink.write(&bytes[..line_len(bytes)])?;
        self.is_at_beginning = taken > 0 && bytes[taken - 1] == b'\n';
        Some(taken)
    }
}
