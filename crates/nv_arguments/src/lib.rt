//! The arguments of `nvme-script`: a subsystem file and a geometry, each given by an option with a
//! value.
//!
//! `Arguments::read(alloc, &["nvme-script", "--depth", "8", "--subsystem=two.toml"])` returns the
//! file `two.toml` and a geometry of depth 8, with everything else as in `Geometry::default()`. It
//! refuses a word that is no option, an option that is given twice or without its value, and a
//! value that is no 32-bit number.
#![tactic(auto)]

mod arguments;
mod clap_rule;
mod fault;
mod option;

pub use arguments::Arguments;
pub use fault::ArgumentsFault;
