//! The names of statuses, as a program in C gets them.

ghost use Rattle.std.specs.Prelude.{◌≡◌, length};
ghost use Rattle.nv_layout.specs.Status.{status_of_number};
ghost use Rattle.nvme_controller.specs.FaultText.{c_text};
ghost use Rattle.nvme_controller.specs.StatusName.{status_name};

use crate::fault::put_texts;
use nv_command::StatusCode;
use nv_layout::Status;

/// Returns the name of a status.
fn name(status: Status) -> &'static str
    ensures { result.now ≡ status_name status }
{
    match (status.sct, status.sc) {
        (0, 0x00) => "Success",
        (0, 0x80) => "LBA Out of Range",
        (0, 0x81) => "Capacity Exceeded",
        (2, 0x85) => "Compare Failure",
        _ => StatusCode::name_of(status),
    }
}

/// Writes the name of a status, which is a status field of 15 bits, and returns how many bytes the
/// name has.
#[tactic(auto, using(crate::proofs::TextLaws::no_more))]
#[unsafe(no_mangle)]
pub extern "C" fn nvme_status_name(status: u16, room: &mut [u8]) -> usize
    ensures text { room.new ≡ c_text (length room.old) (status_name (status_of_number status)) }
    ensures length { result ≡ length (status_name (status_of_number status)) }
{
    let name = name(Status::from_number(status));
    put_texts(&[name], room);
    name.len()
}
