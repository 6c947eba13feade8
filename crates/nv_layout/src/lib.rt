//! Converts the records that an NVM Express host and a controller exchange to and from bytes. All
//! numbers are little endian. Reserved bytes and bits are written as 0 and ignored when they are
//! read.
//!
//! A record is a plain struct with the standard's field names. `put` writes its bytes, `get` reads
//! them:
//!
//! ```
//! let command = Sqe { opcode: 0x06, cid: 7, nsid: 1, ..Default::default() };
//! let mut bytes = [0; 64];
//! command.put(&mut bytes);
//! let same = Sqe::get(&bytes);
//! ```
//!
//! `put` cuts a field to its bits if it is wider. A record whose fields fit is what `get` reads
//! back.
//!
//! Sections are named as in the NVM Express Base Specification, revision 1.4.
#![tactic(auto)]

ghost use Rattle.nv_layout.specs.Cqe.{CqeReadsBack};
ghost use Rattle.nv_layout.specs.CtrlList.{CtrlListReadsBack};
ghost use Rattle.nv_layout.specs.ErrorEntryBytes.{ErrorEntryReadsBack};
ghost use Rattle.nv_layout.specs.IdCtrl.{IdCtrlReadsBack};
ghost use Rattle.nv_layout.specs.IdNs.{IdNsReadsBack, LbafReadsBack};
ghost use Rattle.nv_layout.specs.NewNamespace.{NewNamespaceReadsBack};
ghost use Rattle.nv_layout.specs.NsList.{NsListReadsBack};
ghost use Rattle.nv_layout.specs.Smart.{SmartReadsBack};
ghost use Rattle.nv_layout.specs.Sqe.{SqeReadsBack};
ghost use Rattle.nv_layout.specs.Status.{StatusReadsBack};

mod cqe;
mod ctrl_list;
mod error_entries;
mod error_entry;
mod feature;
mod few;
mod id_ctrl;
mod id_ns;
mod narrow;
mod new_namespace;
mod ns_list;
mod parts;
mod smart;
mod sqe;

pub use cqe::{Cqe, Status};
pub use ctrl_list::{ControllerIds, CtrlList, LayoutError, MOST_CNTLIDS};
pub use error_entries::ErrorEntries;
pub use error_entry::ErrorEntry;
pub use feature::Feature;
pub use few::{Few, Lent};
pub use id_ctrl::IdCtrl;
pub use id_ns::{IdNs, Lbaf};
pub use narrow::{Below, FourBits, ThreeBits};
pub use new_namespace::NewNamespace;
pub use ns_list::{MOST_NSIDS, NamespaceIds, NsList};
pub use parts::{bits_of, to_bits};
pub use smart::Smart;
pub use sqe::Sqe;

/// States the law of this crate: a record whose fields fit their bits is read back from its bytes.
/// The call does nothing.
pub fn reads_back()
    ensures sqe { SqeReadsBack }
    ensures cqe { CqeReadsBack }
    ensures status { StatusReadsBack }
    ensures id_ctrl { IdCtrlReadsBack }
    ensures id_ns { IdNsReadsBack }
    ensures lbaf { LbafReadsBack }
    ensures new_namespace { NewNamespaceReadsBack }
    ensures ns_list { NsListReadsBack }
    ensures ctrl_list { CtrlListReadsBack }
    ensures smart { SmartReadsBack }
    ensures error_entry { ErrorEntryReadsBack }
{}
