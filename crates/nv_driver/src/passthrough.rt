//! Reads the data that came for an entry that was passed through.

ghost use Rattle.std.specs.Prelude.{◌≡◌, ◌≤◌, if◌then◌else◌, length};
ghost use Rattle.nv_prp.specs.Buffer.{IsBuffer, buffer_places};
ghost use Rattle.nv_command.specs.Command.{bytes_to_host};
ghost use Rattle.nv_model.specs.Conditions.{greatest_limit};
ghost use Rattle.nv_bus.specs.Call.{length_of};
ghost use Rattle.nv_driver.specs.Alone.{came_with};
ghost use Rattle.nv_driver.specs.Request.{padded};
ghost use Rattle.nv_driver.specs.Schedule.{is_success, received_from};

use nv_command::Transfer;
use nv_host::HostMemory;
use nv_layout::Status;
use nv_prp::{Buffer, Spans, copy_in};

/// Returns how many bytes come back with this status: none if the entry was refused.
fn received_length(transfer: Transfer, status: Status) -> u32
    requires { length_of transfer ≤ greatest_limit }
    ensures value { result ≡ (if is_success status then bytes_to_host transfer else 0) }
    ensures few { result ≤ length_of transfer }
{
    if !status.is_success() {
        return 0;
    }
    match transfer {
        Transfer::NoData => 0,
        Transfer::ToHost(len) => len as u32,
        Transfer::FromHost(_) => 0,
    }
}

/// Reads the data that came to a buffer, as much as `out` has room for, and zeroes the rest of
/// `out`. None came if the entry was refused.
pub(crate) fn receive<M: HostMemory>(
    mem: &M,
    buffer: &Buffer,
    transfer: Transfer,
    status: Status,
    spans: &mut Spans,
    out: &mut [u8],
)
    requires few { length_of transfer ≤ greatest_limit }
    requires buffer { IsBuffer (M.bytes mem.now) (M.page_len mem.now)
        buffer.now.pages.now buffer.now.offset (length_of transfer) }
    ensures { out.new ≡ padded (length out.old) (came_with status (received_from transfer
        (M.bytes mem.now) (buffer_places (M.page_len mem.now) buffer.now.pages.now
        buffer.now.offset (length_of transfer)))) }
{
    let len = received_length(transfer, status) as usize;
    let count = out.len().min(len);
    buffer.spans(mem, count as u32, spans);
    let (filled, rest) = out.split_at_mut(count);
    copy_in(mem, spans, filled);
    rest.fill(0);
}
