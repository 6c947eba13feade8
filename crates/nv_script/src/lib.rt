//! Scripts of command lines: the commands that a line sends, and what a run of a script leaves
//! behind.
#![tactic(auto)]

mod ends;
mod executing;
mod listing;
mod performing;
mod running;
mod session;

pub use ends::RunEnd;
pub use nv_driver::{Geometry, GeometryField};
pub use nv_line::{
    Ask, CtrlList, LINE_LIMIT, Line, LineFault, LineReader, OptionName, OutputFormat, Query,
    Request, parse_number, read_line,
};
pub use nv_stream::{
    OverRead, OverShared, OverWrite, READ_SIZE, Retrying, SharedWriter, Sink, SinkAfter, Source,
    SourceAfter,
};
pub use performing::each_is_shown;
pub use running::{READ_LIMIT, run, run_within};
