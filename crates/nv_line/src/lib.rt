//! Reads one line of a script: it is nothing, a request, or a fault.
//!
//! The command words and their options are one table, in `verb`. The commands for `clap`, and how
//! their options are read, follow from its rows.
//!
//! `read_line(alloc, b"list-ns /dev/nvme0 -n 2", 1, place)` returns
//! `Ok(Line::Request(Request { query, format }))`, where `query` is `Query::One { controller: 0,
//! ask: Ask::Send(Command::ActiveList { after: 1 }) }` and `format` is `OutputFormat::Normal`. If
//! there are no controllers, it returns `Err(LineFault::Device)`.
#![tactic(auto)]

mod clap_rule;
mod device;
mod fault;
mod features;
mod format;
mod identify;
mod line;
mod logs;
mod management;
mod option;
mod output_format;
mod request;
mod value;
mod verb;

pub use clap_rule::clap_command;
pub use fault::LineFault;
pub use line::{LINE_LIMIT, Line, LineReader, is_skipped_line, read_line, split_words};
pub use nv_layout::CtrlList;
pub use option::{CommandOption, FlagOption, FormatOption, ListOption, NumberOption, OptionName};
pub use output_format::OutputFormat;
pub use request::{Ask, Query, Request};
pub use value::parse_number;
pub use verb::{DeviceVerb, VERBS, Verb};
