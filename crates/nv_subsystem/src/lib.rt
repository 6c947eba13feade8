//! An NVM subsystem: its file, its namespaces, and what each command does to it. The types that
//! commands and replies are made of are re-exported, so you need no other crate:
//!
//! ```
//! use nv_subsystem::{Command, DEMO, Origin, Reply, ReplyRoom, Subsystem, SubsystemError};
//! use std::alloc::Global;
//!
//! /// How many namespaces are attached to the first controller of the demonstration file.
//! fn attached(alloc: Global) -> Result<usize, SubsystemError> {
//!     let mut subsystem = Subsystem::from_toml(alloc, DEMO.as_bytes())?;
//!     let mut room = ReplyRoom::new();
//!     let origin = Origin { cid: 0, phase: true };
//!     if subsystem.controllers() == 0 {
//!         return Ok(0);
//!     }
//!     match subsystem.execute(0, &Command::ActiveList { after: 0 }, origin, &mut room) {
//!         Ok(Reply::List(list)) => Ok(list.as_slice().len()),
//!         _ => Ok(0),
//!     }
//! }
//! ```
#![tactic(auto)]

mod attachment;
mod controller;
mod error_log;
mod execute;
mod feature_value;
mod feature_values;
mod features;
mod format;
mod from_file;
mod identify;
mod identify_controller;
mod logs;
mod management;
mod nsid_lists;
mod record_room;
mod reset;
mod subsystem;

pub use execute::dword0;
pub use nv_command::{
    BROADCAST_NSID, Borrowed, Command, DwordCount, ERROR_INFORMATION, FeatureQuery, FeatureSetting,
    HEALTH, LogPage, LogQuery, NewFormat, NewNamespace, Refusal, Reply, ReplyRoom, StatusCode,
};
pub use nv_file::{DEMO, Key, SubsystemError, TableName};
pub use nv_layout::{ControllerIds, FourBits, NsList, ThreeBits};
pub use nv_model::{
    CID_COUNT, CommandCounts, Counters, Defaults, FeatureRule, Format, Identity, IdentityNumbers,
    Namespace, Origin, SmartBase,
};
pub use record_room::RecordRoom;
pub use subsystem::Subsystem;
