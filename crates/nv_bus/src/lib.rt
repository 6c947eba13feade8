//! Defines a lawful bus to the controllers of a subsystem: their registers, and their turns over
//! the host's memory. Its definitions say how each entry is answered and which bytes of the memory
//! change. An [`Observer`] is shown what a turn takes.
//!
//! Sections are named as in the NVM Express Base Specification, revision 1.4.
#![tactic(auto)]

mod bus;
mod command_result;
mod exchange;
mod observer;

pub use bus::Bus;
pub use command_result::CommandResult;
pub use exchange::Exchange;
pub use observer::{Observer, Unobserved};
