//! Code that the programs share: reading what their arguments ask for, and ending.
#![tactic(auto)]

mod asking;
mod ending;
mod files;
mod stop;
mod words;

pub use asking::{asked, words_given};
pub use ending::exit_code;
pub use files::NamedFiles;
pub use stop::{Stop, status_of};
pub use words::GivenWords;
