//! The Identify commands. Section "Identify command".

ghost use Rattle.std.specs.Prelude.{◌≡◌};
ghost use Rattle.nv_command.specs.Form.{form, identify_data, identify_fields};
ghost use Rattle.nv_command.specs.Identify.{identify_command};

use crate::command::Command;
use crate::status_code::StatusCode;
use crate::transfer::{Form, ReplyKind, Transfer};
use nv_layout::Sqe;

/// Returns the form of an Identify command with this Controller or Namespace Structure (CNS) and
/// this kind of reply.
pub(crate) fn form_by(cns: u8, nsid: u32, reply: ReplyKind) -> Form
    ensures { result ≡ form (identify_fields cns) nsid identify_data reply }
{
    Form::new(0x06, u32::from(cns), nsid, Transfer::ToHost(4096), reply)
}

/// Returns the command of an Identify entry.
pub(crate) fn command<'a>(entry: &Sqe) -> Result<Command<'a>, StatusCode>
    ensures { result ≡ identify_command entry.now }
{
    let nsid = entry.nsid;
    match entry.cdw10 % 0x100 {
        0x00 => Ok(Command::IdentifyNamespace { nsid }),
        0x01 => Ok(Command::IdentifyController),
        0x02 => Ok(Command::ActiveList { after: nsid }),
        0x10 => Ok(Command::AllocatedList { after: nsid }),
        0x11 => Ok(Command::AllocatedNamespace { nsid }),
        _ => Err(StatusCode::InvalidFieldInCommand),
    }
}
