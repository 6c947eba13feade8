//! The commands of the Admin Command Set with their replies and refusals, and how they are
//! transferred: a command as a submission queue entry and, if it has any, data to the controller; a
//! reply as dword 0 of its completion and data to the host.
//!
//! Sections are named as in the NVM Express Base Specification, revision 1.4.
#![tactic(auto)]

ghost use Rattle.std.specs.Prelude.{◌≡◌};
ghost use Rattle.nv_command.specs.declared.command.TheConstants.{BROADCAST_NSID};
ghost use Rattle.nv_command.specs.declared.log_page.TheConstants.{ERROR_INFORMATION, HEALTH};
ghost use Rattle.nv_command.specs.Travel.{CommandsTravel, RepliesFit, RepliesTravel};

mod borrowed;
mod command;
mod decoded;
mod dword_count;
mod features;
mod format;
mod identify;
mod log_page;
mod logs;
mod refusal;
mod reply;
mod reply_room;
mod status_code;
mod transfer;

pub use borrowed::Borrowed;
pub use command::{BROADCAST_NSID, Command};
pub use decoded::Decoded;
pub use dword_count::DwordCount;
pub use features::{FeatureQuery, FeatureSetting};
pub use format::NewFormat;
pub use log_page::{ERROR_INFORMATION, HEALTH, LogPage};
pub use logs::LogQuery;
pub use nv_layout::NewNamespace;
pub use refusal::Refusal;
pub use reply::Reply;
pub use reply_room::ReplyRoom;
pub use status_code::StatusCode;
pub use transfer::Transfer;

/// States a law: the constants of this crate are the standard's numbers. The call does nothing.
pub fn constants()
    ensures broadcast_nsid { BROADCAST_NSID ≡ 0xffffffff }
    ensures error_information { ERROR_INFORMATION ≡ 0x01 }
    ensures health { HEALTH ≡ 0x02 }
{}

/// States the law of this crate. A command whose fields fit is read back from its entry and its
/// data to the controller. A reply that fits its record is read back from its dword 0 and its data
/// to the host, for the command that it belongs to. From a log the host takes as many entries as it
/// requested, without their phase tags. The call does nothing.
pub fn travels()
    ensures commands { CommandsTravel }
    ensures sizes { RepliesFit }
    ensures replies { RepliesTravel }
{}
