//! Sources and sinks of bytes, over readers and writers of std.
#![tactic(auto)]

mod in_order;
mod retrying;
mod streams;
mod writing;

pub use in_order::{Buffered, OverShared, SharedWriter, SinkAfter, SourceAfter};
pub use retrying::Retrying;
pub use streams::{OverRead, OverWrite, READ_SIZE, Sink, Source};
pub use writing::write_all;
