//! The faults of a subsystem file, as a program in C gets them.

ghost use Rattle.std.specs.Prelude.{◌≡◌, length, map};
ghost use Rattle.std.specs.List.{concat};
ghost use Rattle.nv_file.specs.FaultText.{fault_text};
ghost use Rattle.nvme_controller.specs.Calls.{number_of};
ghost use Rattle.nvme_controller.specs.FaultText.{c_text};

use nv_subsystem::SubsystemError;

/// Returns the number of a fault.
pub(crate) fn number(fault: SubsystemError) -> i32
    ensures { result ≡ number_of fault }
{
    match fault {
        SubsystemError::NotToml => 1,
        SubsystemError::Missing { .. } => 2,
        SubsystemError::Kind { .. } => 3,
        SubsystemError::Range { .. } => 4,
        SubsystemError::Repeated { .. } => 5,
        SubsystemError::Unknown { .. } => 6,
        SubsystemError::Capacity => 7,
        SubsystemError::Attachment => 8,
        SubsystemError::Memory => 9,
    }
}

/// Writes texts one after another, and fills the room up with zeros. They are cut so that a zero
/// byte ends them.
#[tactic(auto, using(crate::proofs::TextLaws::after))]
pub(crate) fn put_texts(texts: &[&str], room: &mut [u8])
    ensures { room.new ≡ c_text (length room.old) (concat (map (λ t. t.now) texts.now)) }
{
    match texts.split_first() {
        Some((text, others)) => {
            let count = text.len().min(room.len().saturating_sub(1));
            let (shown, rest) = room.split_at_mut(count);
            shown.copy_from_slice(&text.as_bytes()[..count]);
            put_texts(others, rest);
        }
        None => room.fill(0),
    }
}

/// Writes the text of a fault.
#[tactic(auto, using(crate::proofs::TextLaws::no_more))]
pub(crate) fn put_fault(fault: SubsystemError, room: &mut [u8])
    ensures { room.new ≡ c_text (length room.old) (fault_text fault) }
{
    let (what, table, dot, key) = fault.parts();
    put_texts(&[what, table, dot, key], room);
}
