//! Controllers that can be watched: `Traced` writes a line for each register write of the host, for
//! each entry that a controller takes, and for each completion that it posts. `Marked` puts a mark
//! before each line of another text, so that both can go to one place.
//!
//! Sections are named as in the NVM Express Base Specification, revision 1.4.
#![tactic(auto)]

mod event;
mod hexadecimal;
mod line_text;
mod marked;
mod posted;
mod taken;
#[cfg(test)]
mod tests;
mod traced;
mod voice;
mod written;

pub use marked::Marked;
pub use traced::Traced;
