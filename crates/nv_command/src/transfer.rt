//! How commands travel: the fields of their entries, their data, and the kind of their replies.

ghost use Rattle.std.specs.Prelude.{◌≡◌};
ghost use Rattle.nv_command.specs.Command.{length_of};
ghost use Rattle.nv_command.specs.Form.{form, short_fields};

/// The direction and the length of the data of a command, which isn't in its entry or its
/// completion.
#[derive(Clone, Copy, Debug, PartialEq, Eq)]
pub enum Transfer {
    /// There is no data.
    NoData,
    /// From the controller to the host, in bytes.
    ToHost(u64),
    /// From the host to the controller, in bytes.
    FromHost(u64),
}

/// The data of a command that creates, attaches or detaches.
pub const PAGE_FROM_HOST: Transfer = Transfer::FromHost(4096);

impl Transfer {
    /// Returns how many bytes the data has.
    pub fn bytes(self) -> u64
        ensures { result ≡ length_of self }
    {
        match self {
            Transfer::NoData => 0,
            Transfer::ToHost(len) | Transfer::FromHost(len) => len,
        }
    }
}

/// The opcode of a command and its command specific dwords.
#[derive(Clone, Copy, Debug, PartialEq, Eq)]
pub struct Fields {
    pub opcode: u8,
    pub cdw10: u32,
    pub cdw11: u32,
    pub cdw12: u32,
    pub cdw13: u32,
}

/// The kind of the reply to an accepted command: a case of `Reply`.
#[derive(Clone, Copy, Debug, PartialEq, Eq)]
pub enum ReplyKind {
    Controller,
    Namespace,
    List,
    Number,
    Done,
    Errors,
    Smart,
}

/// The form of a command: its entry, its data, and the kind of its reply.
#[derive(Clone, Copy, Debug, PartialEq, Eq)]
pub struct Form {
    /// The opcode of its entry and its command specific dwords.
    pub fields: Fields,
    /// The NSID of its entry.
    pub nsid: u32,
    /// Its data.
    pub transfer: Transfer,
    /// The kind of its reply.
    pub reply: ReplyKind,
}

impl Form {
    /// Returns the form of a command that has no command specific dword but Command Dword 10.
    pub(crate) fn new(
        opcode: u8,
        cdw10: u32,
        nsid: u32,
        transfer: Transfer,
        reply: ReplyKind,
    ) -> Form
        ensures { result ≡ form (short_fields opcode cdw10) nsid transfer reply }
    {
        Form {
            fields: Fields {
                opcode,
                cdw10,
                cdw11: 0,
                cdw12: 0,
                cdw13: 0,
            },
            nsid,
            transfer,
            reply,
        }
    }
}
