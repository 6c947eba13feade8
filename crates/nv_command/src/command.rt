//! Commands, and their conversion to submission queue entries.

ghost use Rattle.std.specs.Prelude.{◌≡◌};
ghost use Rattle.nv_layout.specs.Sqe.{SqeFits};
ghost use Rattle.nv_command.specs.Command.{CommandFits, host_data_of, transfer_by};
ghost use Rattle.nv_command.specs.Form.{namespace_of};
ghost use Rattle.nv_command.specs.Entry.{entry_of};
ghost use Rattle.nv_command.specs.Form.{form_of};
ghost use Rattle.nv_command.specs.Reply.{with_data};
ghost use Rattle.nv_command.specs.Travel.{Arrives};

use crate::features::{FeatureQuery, FeatureSetting};
use crate::format::NewFormat;
use crate::identify;
use crate::logs::LogQuery;
use crate::transfer::{Form, PAGE_FROM_HOST, ReplyKind, Transfer};
use nv_layout::{ControllerIds, NewNamespace, Sqe};

/// The NSID that means all namespaces. Section "Namespace Identifier".
pub const BROADCAST_NSID: u32 = 0xffff_ffff;

/// A command with its fields as numbers. The list of an attachment is borrowed. Section "Admin
/// Command Set".
#[derive(Debug, Drop, PartialEq, Eq)]
pub enum Command<'a> {
    /// Identify, CNS 01h: returns the controller's data.
    IdentifyController,
    /// Identify, CNS 00h: returns the data of a namespace that is attached to the controller.
    IdentifyNamespace {
        nsid: u32,
    },
    /// Identify, CNS 11h: returns the data of an allocated namespace.
    AllocatedNamespace {
        nsid: u32,
    },
    /// Identify, CNS 02h: returns the NSIDs above `after` that are attached to the controller.
    ActiveList {
        after: u32,
    },
    /// Identify, CNS 10h: returns the allocated NSIDs above `after`.
    AllocatedList {
        after: u32,
    },
    /// Namespace Management, select 0h: a namespace is created.
    Create(NewNamespace),
    /// Namespace Management, select 1h: a namespace is deleted.
    Delete {
        nsid: u32,
    },
    /// Namespace Attachment: attaches a namespace to the listed controllers (select 0h), or
    /// detaches it from them (select 1h).
    Attachment {
        nsid: u32,
        detach: bool,
        list: ControllerIds<'a>,
    },
    /// Format NVM: a namespace gets a format.
    Format(NewFormat),
    /// Get Features: a value of a feature.
    GetFeature(FeatureQuery),
    /// Set Features: sets a feature.
    SetFeature(FeatureSetting),
    /// Get Log Page: returns a part of a log.
    GetLog(LogQuery),
}

impl<'a> Command<'a> {
    /// Returns the command's form: its entry, its data, and the kind of its reply. It is inlined,
    /// because each caller needs only a part.
    #[inline(always)]
    pub(crate) fn form(&self) -> Form
        ensures { result ≡ form_of self.now }
    {
        match self {
            Command::IdentifyController => identify::form_by(0x01, 0, ReplyKind::Controller),
            Command::IdentifyNamespace { nsid } => {
                identify::form_by(0x00, *nsid, ReplyKind::Namespace)
            }
            Command::AllocatedNamespace { nsid } => {
                identify::form_by(0x11, *nsid, ReplyKind::Namespace)
            }
            Command::ActiveList { after } => identify::form_by(0x02, *after, ReplyKind::List),
            Command::AllocatedList { after } => identify::form_by(0x10, *after, ReplyKind::List),
            Command::Create(_) => Form::new(0x0d, 0x0, 0, PAGE_FROM_HOST, ReplyKind::Number),
            Command::Delete { nsid } => {
                Form::new(0x0d, 0x1, *nsid, Transfer::NoData, ReplyKind::Done)
            }
            Command::Attachment { nsid, detach, .. } => {
                let select = u32::from(*detach);
                Form::new(0x15, select, *nsid, PAGE_FROM_HOST, ReplyKind::Done)
            }
            Command::Format(asked) => asked.form(),
            Command::GetFeature(asked) => asked.form(),
            Command::SetFeature(asked) => asked.form(),
            Command::GetLog(asked) => asked.form(),
        }
    }

    /// Returns the NSID of its entry, with which a refusal is recorded. For a list it is the NSID
    /// after which the list begins, and it is 0 for the controller and for the creation of a
    /// namespace.
    pub fn nsid(&self) -> u32
        ensures { result ≡ namespace_of self.now }
    {
        self.form().nsid
    }

    /// Returns the data transfer of the command.
    pub fn transfer(&self) -> Transfer
        ensures { result ≡ transfer_by self.now }
    {
        self.form().transfer
    }

    /// States a law: each field fits its bits, as its type says. The call does nothing.
    pub fn fits(&self)
        ensures { CommandFits self.now }
    {
        // The range of a field is known once the field is read.
        match self {
            Command::IdentifyController => {}
            Command::IdentifyNamespace { nsid }
            | Command::AllocatedNamespace { nsid }
            | Command::Delete { nsid } => {
                let _nsid = *nsid;
            }
            Command::ActiveList { after } | Command::AllocatedList { after } => {
                let _after = *after;
            }
            Command::Create(wanted) => wanted.fits(),
            Command::Attachment { nsid, list, .. } => {
                let _nsid = *nsid;
                list.fits();
            }
            Command::Format(asked) => asked.fits(),
            Command::GetFeature(asked) => asked.fits(),
            Command::SetFeature(asked) => asked.fits(),
            Command::GetLog(asked) => asked.fits(),
        }
    }

    /// Returns its submission queue entry with this command identifier. All that no command sets is
    /// 0: the data pointer (PRP1 and PRP2) too, and there is no fused operation, no SGL and no
    /// metadata.
    pub fn entry(&self, cid: u16) -> Sqe
        ensures entry { result ≡ entry_of self.now cid }
        ensures fits { SqeFits result }
        ensures arrives { Arrives self.now cid }
    {
        self.fits();
        let Form { fields, nsid, .. } = self.form();
        Sqe {
            opcode: fields.opcode,
            fuse: 0,
            psdt: 0,
            cid,
            nsid,
            mptr: 0,
            prp1: 0,
            prp2: 0,
            cdw10: fields.cdw10,
            cdw11: fields.cdw11,
            cdw12: fields.cdw12,
            cdw13: fields.cdw13,
            cdw14: 0,
            cdw15: 0,
        }
    }

    /// Writes the data that the host sends with it to the beginning of a page of 4,096 bytes.
    /// Writes nothing if the host sends none.
    pub fn put(&self, page: &mut [u8; 4096])
        ensures { page.new ≡ with_data (host_data_of self.now) page.old }
    {
        match self {
            Command::Create(wanted) => wanted.put(page),
            Command::Attachment { list, .. } => list.put(page),
            _ => {}
        }
    }
}
