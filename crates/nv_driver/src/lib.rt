//! The host's driver of the controllers of a bus.
//!
//! A [`Driver`] has memory of its own, with a submission ring, a completion ring and pages for each
//! controller. [`Driver::bring_up`] allocates this memory by a [`Geometry`], and makes each
//! controller ready with its rings:
//!
//! ```
//! let mut machine = Machine::new(alloc, subsystem)?;
//! let mut driver = Driver::bring_up(alloc, &mut machine, Geometry::default())?;
//! let pages = driver.pages(); // 9 for each controller
//! ```
//!
//! [`Driver::admin`] sends a command through a controller's rings, with its data in the driver's
//! pages, which PRP entries name. It returns the answer: the reply, or the status of the refusal.
//! The answer is stored in an [`AnswerRoom`], which is allocated once.
//!
//! ```
//! let mut room = AnswerRoom::new();
//! match driver.admin(&mut machine, 0, &Command::ActiveList { after: 0 }, &mut room) {
//!     Ok(reply) => show(reply),
//!     Err(status) => refused(status),
//! }
//! ```
//!
//! [`Driver::admin_all`] sends a list of commands, of which as many are outstanding at a time as
//! the geometry's window allows. The answers are the same as if the commands were sent one at a
//! time, and a refusal doesn't stop the others.
//!
//! [`Driver::reset`] resets a controller between its commands: values of its features that were not
//! saved return to their defaults, and its rings begin anew, while the command identifiers
//! continue. [`Driver::bring_up`] resets each controller that it finds enabled.
//!
//! ```
//! driver.reset(&mut machine, 0)?;
//! ```
//!
//! [`Driver::passthrough`] sends any entry, even with a reserved opcode, and returns what its
//! completion says. The driver sets the command identifier and the data pointer, and nothing else. A
//! driver from [`Driver::bring_up_for_entries`] has room for the data.
//!
//! ```
//! let mut driver = Driver::bring_up_for_entries(alloc, &mut machine, Geometry::default())?;
//! let told = driver.passthrough(&mut machine, 0, &entry, &[], &mut data);
//! ```
//!
//! Sections are named as in the NVM Express Base Specification, revision 1.4.
#![tactic(auto)]

mod answer_room;
mod any_bus;
mod batch;
mod checked_geometry;
mod command_pages;
mod driver;
mod enabling;
mod error;
mod geometry;
mod geometry_field;
mod host_side;
mod law;
mod layout;
mod passthrough;
mod queue_pair;
mod requests;
mod ringing;
mod submitting;
mod zeroing;

pub use answer_room::{Answer, AnswerRoom};
pub use driver::Driver;
pub use error::DriverError;
pub use geometry::Geometry;
pub use geometry_field::GeometryField;
pub use law::{any_command, any_entry, any_schedule};
pub use nv_bus::CommandResult;
pub use ringing::Ringing;
pub use zeroing::Zeroing;
