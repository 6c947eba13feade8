//! Reads the file of an NVM subsystem, in TOML: the contents of its tables, or its first fault.
//!
//! [`File::from_toml`] reads a whole file. Its contents are valid: each key is in its range, each
//! name occurs once, each namespace has a format of the file and is attached to controllers of the
//! file, and the sum of the capacities is no more than there is. Otherwise it returns the first
//! fault in the order of the file, as a [`SubsystemError`] that names the table and the key and
//! prints as one line.
//!
//! ```
//! use nv_file::{DEMO, File, SubsystemError};
//! use std::alloc::Global;
//!
//! /// The greatest NSID and the number of controllers of the demonstration file.
//! fn size(alloc: Global) -> Result<(u32, usize), SubsystemError> {
//!     let file = File::from_toml(alloc, DEMO.as_bytes())?;
//!     Ok((file.nn, file.controllers.len()))
//! }
//! ```
//!
//! The numbers of controllers, namespaces and logs are those of the NVM Express Base Specification,
//! revision 1.4. Its sections are named by their titles.
#![tactic(auto)]

mod attachment;
mod controller;
mod defaults;
mod demo;
mod error;
mod feature_rule;
mod file;
mod format;
mod identity;
mod key;
mod namespace;
mod section;
mod smart_base;
mod table_name;
mod top;

pub use controller::ControllerEntry;
pub use demo::DEMO;
pub use error::{SubsystemError, TextParts};
pub use file::File;
pub use key::Key;
pub use namespace::NamespaceEntry;
pub use nv_model::{
    Counters, Defaults, FeatureRule, Format, Identity, IdentityNumbers, Namespace, SmartBase,
};
pub use table_name::TableName;
