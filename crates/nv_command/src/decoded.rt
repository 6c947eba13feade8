//! Entries that are decoded before the data that the host sends is read.

ghost use Rattle.std.specs.Prelude.{◌≡◌, IfOk};
ghost use Rattle.nv_command.specs.Command.{transfer_by};
ghost use Rattle.nv_command.specs.Decoding.{command_with, decoded_of, opcode_of, transfer_in};

use crate::command::Command;
use crate::status_code::StatusCode;
use crate::transfer::{PAGE_FROM_HOST, Transfer};
use crate::{features, format, identify, logs};
use nv_layout::{CtrlList, NewNamespace, Sqe};

/// What an entry asks for, before the data that the host sends is read.
#[derive(Debug, Drop)]
pub enum Decoded<'a> {
    /// A command with which the host sends no data.
    Whole(Command<'a>),
    /// The creation of the namespace that the data describes.
    Create,
    /// Attaches a namespace to the controllers that the data lists, or detaches it from them.
    Attachment { nsid: u32, detach: bool },
}

/// The known opcodes. Section "Opcodes for Admin Commands".
#[derive(Clone, Copy, Debug, PartialEq, Eq)]
pub enum Opcode {
    Identify,
    NamespaceManagement,
    NamespaceAttachment,
    FormatNvm,
    GetFeatures,
    SetFeatures,
    GetLogPage,
}

impl Opcode {
    /// Returns the opcode of an entry, if it is known and the entry is neither fused nor uses SGLs.
    pub(crate) fn of(entry: &Sqe) -> Result<Opcode, StatusCode>
        ensures { result ≡ opcode_of entry.now }
    {
        let opcode = match entry.opcode {
            0x06 => Opcode::Identify,
            0x0d => Opcode::NamespaceManagement,
            0x15 => Opcode::NamespaceAttachment,
            0x80 => Opcode::FormatNvm,
            0x0a => Opcode::GetFeatures,
            0x09 => Opcode::SetFeatures,
            0x02 => Opcode::GetLogPage,
            _ => return Err(StatusCode::InvalidCommandOpcode),
        };
        if entry.fuse != 0 || entry.psdt != 0 {
            return Err(StatusCode::InvalidFieldInCommand);
        }
        Ok(opcode)
    }
}

impl<'a> Decoded<'a> {
    /// Decodes an entry, or returns the status of the first rule that it breaks: its opcode is
    /// unknown, it is fused or uses SGLs, or a field of it has no meaning. Bits without meaning are
    /// ignored. It is inlined, because its result is large.
    #[inline(always)]
    pub fn of(entry: &Sqe) -> Result<Decoded<'a>, StatusCode>
        ensures { result ≡ decoded_of entry.now }
    {
        let nsid = entry.nsid;
        match Opcode::of(entry)? {
            Opcode::Identify => Ok(Decoded::Whole(identify::command(entry)?)),
            Opcode::NamespaceManagement => match entry.cdw10 % 0x10 {
                0x0 => Ok(Decoded::Create),
                0x1 => Ok(Decoded::Whole(Command::Delete { nsid })),
                _ => Err(StatusCode::InvalidFieldInCommand),
            },
            Opcode::NamespaceAttachment => match entry.cdw10 % 0x10 {
                0x0 => Ok(Decoded::Attachment {
                    nsid,
                    detach: false,
                }),
                0x1 => Ok(Decoded::Attachment { nsid, detach: true }),
                _ => Err(StatusCode::InvalidFieldInCommand),
            },
            Opcode::FormatNvm => Ok(Decoded::Whole(format::command(entry))),
            Opcode::GetFeatures => Ok(Decoded::Whole(features::get_command(entry))),
            Opcode::SetFeatures => Ok(Decoded::Whole(features::set_command(entry))),
            Opcode::GetLogPage => Ok(Decoded::Whole(logs::command(entry))),
        }
    }

    /// Returns the data transfer of the command.
    pub fn transfer(&self) -> Transfer
        ensures { result ≡ transfer_in self.now }
    {
        match self {
            Decoded::Whole(command) => command.transfer(),
            Decoded::Create | Decoded::Attachment { .. } => PAGE_FROM_HOST,
        }
    }

    /// Returns the command with the data that the host sent, or the status of the first rule that
    /// the data breaks: it isn't a page of 4,096 bytes, or it lists too many controllers. It is
    /// ignored if the command has none. Listed controllers are written to `place`, whose contents
    /// don't matter before.
    pub fn command(self, sent: &[u8], place: &'a mut CtrlList) -> Result<Command<'a>, StatusCode>
        ensures found { result ≡ command_with self.entry sent.now }
        ensures transfer { IfOk result (λ command. transfer_by command ≡ transfer_in self.entry) }
    {
        match self {
            Decoded::Whole(command) => Ok(command),
            Decoded::Create => {
                let page = sent.as_array().ok_or(StatusCode::DataTransferError)?;
                Ok(Command::Create(NewNamespace::get(page)))
            }
            Decoded::Attachment { nsid, detach } => {
                let page = sent.as_array().ok_or(StatusCode::DataTransferError)?;
                place.read(page)?;
                Ok(Command::Attachment {
                    nsid,
                    detach,
                    list: place.ids(),
                })
            }
        }
    }
}
