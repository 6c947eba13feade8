//! Data that a program in C sends to where an entry's data pointer says.

ghost use Rattle.std.specs.Prelude.{◌≡◌, ◌≤◌, IsTrue, length};
ghost use Rattle.nv_host.specs.Pages.{are_pages};
ghost use Rattle.nv_layout.specs.Sqe.{sqe_of_bytes};
ghost use Rattle.nv_prp.specs.Transfer.{most_bytes};
ghost use Rattle.nv_blocks.specs.Effect.{sent};
ghost use Rattle.nvme_controller.specs.Blocks.{CanSend, cannot_send, sent_memory, sent_status};

use crate::lent::Lent;
use nv_blocks::{Refusal, send};
use nv_host::{LentBytes, LentMemory, Loan, are_pages};
use nv_layout::Sqe;
use std::marker::Brand;

/// The greatest transfer of any command, in bytes.
const MOST_BYTES: usize = 1_048_576;

/// Sends bytes to an entry's data in this memory, which it returns.
fn write<'a, L: Loan>(
    entry: &Sqe,
    memory: &'a mut [u8],
    page_size: u32,
    bytes: &[u8],
) -> Lent<'a, u16>
    requires pages { IsTrue (are_pages page_size (length memory.old)) }
    requires few { length bytes.now ≤ most_bytes }
    requires loan { memory.ghost_name ≡ L.reference }
    ensures same_reference { result.memory.ghost_name ≡ memory.entry.ghost_name }
    ensures status { result.value
        ≡ sent_status (sent page_size entry.now bytes.now memory.old) }
    ensures memory { result.memory.now
        ≡ sent_memory (sent page_size entry.now bytes.now memory.old) memory.old }
{
    let mut lent: LentMemory<'a, L> = LentMemory::new(memory, page_size);
    let value = match send(&mut lent, entry, bytes) {
        Ok(()) => 0,
        Err(refusal) => refusal.status().number(),
    };
    let LentBytes { bytes: memory } = lent.into_bytes();
    Lent { value, memory }
}

/// Writes bytes to where the data pointer of an entry says, and returns 0, or the status with which
/// to refuse the entry. Then nothing is written.
#[unsafe(no_mangle)]
pub extern "C" fn nvme_lent_write(
    entry: &[u8; 64],
    memory: &mut [u8],
    page_size: u32,
    bytes: &[u8],
) -> u16
    ensures status { CanSend page_size (length memory.old) (length bytes.now) → result
        ≡ sent_status (sent page_size (sqe_of_bytes entry.now) bytes.now memory.old) }
    ensures memory { CanSend page_size (length memory.old) (length bytes.now) → memory.new
        ≡ sent_memory (sent page_size (sqe_of_bytes entry.now) bytes.now memory.old) memory.old }
    ensures cannot { ¬ CanSend page_size (length memory.old) (length bytes.now)
        → (result ≡ cannot_send) × (memory.new ≡ memory.old) }
{
    if !are_pages(page_size, memory.len()) || bytes.len() > MOST_BYTES {
        return Refusal::DataTransferError.status().number();
    }
    write::<Brand>(&Sqe::get(entry), memory, page_size, bytes).value
}
