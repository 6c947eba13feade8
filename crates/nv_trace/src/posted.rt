//! A completion that was posted, as a line.

ghost use Rattle.std.specs.Prelude.{◌≡◌};
ghost use Rattle.nv_trace.specs.Lines.{meaning};

use crate::event::Event;
use crate::line_text::LineText;
use nv_layout::{Cqe, Status};

/// A completion of a controller's completion queue.
#[derive(Clone, Copy)]
pub(crate) struct Posted {
    pub(crate) ctrl: u16,
    pub(crate) completion: Cqe,
}

/// Returns whether a command succeeded, in a word.
fn meaning_of(status: Status) -> &'static str
    ensures { result.now ≡ meaning status }
{
    if status.is_success() {
        "success"
    } else {
        "refused"
    }
}

/// Its line is such as `nvme0 posted cid=0x0 status=0x0 success dword0=0x0 sqhd=0x1`.
impl Event for Posted {
    ghost use Rattle.nv_trace.specs.Lines.{posted_text};

    ghost text = { posted_text };

    fn put(&self, line: &mut LineText) {
        let Posted { ctrl, completion } = *self;
        line.add("nvme");
        line.add_decimal(ctrl);
        line.add(" posted cid=0x");
        line.add_hex(u64::from(completion.cid));
        line.add(" status=0x");
        line.add_hex(u64::from(completion.status.number()));
        line.add(" ");
        line.add(meaning_of(completion.status));
        line.add(" dword0=0x");
        line.add_hex(u64::from(completion.command_specific));
        line.add(" sqhd=0x");
        line.add_hex(u64::from(completion.sq_head));
    }
}
