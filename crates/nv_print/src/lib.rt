//! The texts that a line of a script prints: what it shows, as text or as JSON, and the message of
//! a fault.
//!
//! A record is shown by its fields: as text in the order of the standard, and as JSON, which
//! `json` writes, in that of their keys.
//!
//! Sections are named as in the NVM Express Base Specification, revision 1.4.
#![tactic(auto)]

mod column;
mod device;
mod device_list;
mod device_texts;
mod devices;
mod fault;
mod field;
mod hexadecimal;
mod identity;
mod log_fields;
mod logs;
mod members;
mod namespace;
mod ns_list;
mod printable;
mod select;
mod sentence;
mod shown;

pub use device::ListedDevice;
pub use device_list::DeviceList;
pub use fault::{Fault, FaultCause, message};
pub use nv_host::Memory;
pub use select::Select;
pub use shown::{Shown, json, text};
