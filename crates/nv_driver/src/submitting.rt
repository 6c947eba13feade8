//! A request that is sent to a controller: its entry, its data, where these lie, and how it is
//! submitted.

ghost use Rattle.std.specs.Prelude.{◌≡◌, ◌+◌, ◌*◌, ◌<◌, ◌≤◌, length};
ghost use Rattle.nv_prp.specs.Buffer.{IsBuffer, KeepsOutsideList, StaysFor, buffer_places};
ghost use Rattle.nv_prp.specs.Place.{written_at};
ghost use Rattle.nv_prp.specs.Transfer.{data_pages, room, transfer};
ghost use Rattle.nv_command.specs.Command.{bytes_from_host};
ghost use Rattle.nv_bus.specs.Call.{HasRoom, length_of};
ghost use Rattle.nv_model.specs.Conditions.{greatest_limit};
ghost use Rattle.nv_driver.specs.Request.{Asked, sent_for, transfer_for};
ghost use Rattle.nv_driver.specs.Submitting.{place_in};
ghost use Rattle.nv_driver.specs.inner.Submitting.{HasFreeSlot, IsPlaceFor, IsSubmittedAt};
ghost use Rattle.nv_driver.specs.HostData.{sent_by};
ghost use Rattle.nv_driver.specs.inner.Submitting.{request_as, request_place};

use crate::checked_geometry::CheckedGeometry;
use crate::layout::MOST_ENTRY_BYTES;
use crate::queue_pair::QueuePair;
use nv_command::{Command, Decoded, Transfer};
use nv_host::{HostMemory, PageNo, Payload};
use nv_layout::Sqe;
use nv_model::CID_COUNT;
use nv_prp::{Buffer, ListPlace, Spans, build, write_out};

/// The data that the host sends with a request. It is made where it belongs.
#[derive(Clone, Copy)]
pub enum HostData<'a, 'b> {
    /// That of a command.
    Command(&'a Command<'b>),
    /// As many bytes: the first of these, or if they are too few, all of them and zeros after the
    /// last one.
    Bytes { bytes: &'a [u8], len: usize },
}

impl<'a, 'b> Payload for HostData<'a, 'b> {
    ghost bytes = { sent_by };

    #[tactic(auto, using(crate::proofs::PaddingLaws::parts_sent))]
    fn fill(&self, at: usize, out: &mut [u8]) {
        match self {
            HostData::Command(command) => {
                command.fits();
                if let Some(page) = out.as_mut_array() {
                    command.put(page);
                    return;
                }
                let mut page = [0; 4096];
                command.put(&mut page);
                out.copy_from_slice(&page[at..at + out.len()]);
            }
            HostData::Bytes { bytes, .. } => {
                let first = at.min(bytes.len());
                let count = out.len().min(bytes.len() - first);
                let (given, rest) = out.split_at_mut(count);
                given.copy_from_slice(&bytes[first..first + count]);
                rest.fill(0);
            }
        }
    }
}

/// A request: its entry, the direction and the length of its data, and what the host sends.
#[derive(Clone, Copy)]
pub struct Outgoing<'a, 'b> {
    pub entry: Sqe,
    pub transfer: Transfer,
    pub sends: HostData<'a, 'b>,
}

/// Returns the direction and the length of an entry's data: none if a controller refuses the entry
/// before it reads the data pointer.
pub(crate) fn transfer_for(entry: &Sqe) -> Transfer
    ensures value { result ≡ transfer_for entry.now }
    ensures room { HasRoom result }
    ensures few { length_of result ≤ greatest_limit }
{
    let Ok(asked) = Decoded::of(entry) else {
        return Transfer::NoData;
    };
    let transfer = asked.transfer();
    if transfer.bytes() <= u64::from(MOST_ENTRY_BYTES) {
        transfer
    } else {
        Transfer::NoData
    }
}

impl<'a, 'b> Outgoing<'a, 'b> {
    /// Returns the request of an entry and the host's bytes. If these are too few, zeros are sent
    /// after them.
    pub(crate) fn of_entry(entry: &Sqe, bytes: &'a [u8]) -> Outgoing<'a, 'b>
        ensures entry { result.entry ≡ entry.now }
        ensures transfer { result.transfer ≡ transfer_for entry.now }
        ensures few { length_of result.transfer ≤ greatest_limit }
        ensures sends { sent_by result.sends ≡ sent_for (transfer_for entry.now) bytes.now }
    {
        let transfer = transfer_for(entry);
        let len = match transfer {
            Transfer::FromHost(len) => len as usize,
            Transfer::NoData | Transfer::ToHost(_) => 0,
        };
        Outgoing {
            entry: *entry,
            transfer,
            sends: HostData::Bytes { bytes, len },
        }
    }
}

/// Where the data of a request lies, and where its list does if it has one.
#[derive(Clone, Copy)]
pub struct DataPlace<'a> {
    pub buffer: Buffer<'a>,
    list: ListPlace,
}

impl<'a> DataPlace<'a> {
    /// Returns the place of data in pages, of which the first two are for a list.
    pub(crate) fn within(geometry: CheckedGeometry, pages: &'a [PageNo]) -> DataPlace<'a>
        requires { 2 ≤ length pages.now }
        ensures { request_place result ≡ place_in geometry pages.now }
    {
        let (in_page, in_list_page) = (geometry.offset, geometry.list_offset);
        DataPlace {
            buffer: Buffer {
                pages: &pages[2..],
                offset: in_page,
            },
            list: ListPlace {
                first: pages[0],
                second: pages[1],
                offset: in_list_page,
            },
        }
    }
}

/// Returns the data pointer, PRP1 and PRP2, of `len` bytes at a place, or 0 and 0 if there are
/// none. Writes its list if it has one, and nothing else. Section "Physical Region Page Entry and
/// List".
pub(crate) fn point_to<M: HostMemory>(mem: &mut M, place: &DataPlace, len: u32) -> (u64, u64)
    requires limit { len ≤ greatest_limit }
    requires place { IsPlaceFor (M.bytes mem.old) (M.page_len mem.old) (request_place place.now) len }
    ensures stays { 0 < len → StaysFor (transfer (M.page_len mem.new)
        (M.bytes mem.new) result.0 result.1 len) (request_place place.now).pages
        (request_place place.now).offset (request_place place.now).first (request_place place.now).second }
    ensures none { len ≡ 0 → (result.0 ≡ 0) × (result.1 ≡ 0) }
    ensures one { 0 < len → data_pages (transfer (M.page_len mem.new)
        (M.bytes mem.new) result.0 result.1 len) ≡ 1 → result.1 ≡ 0 }
    ensures list { 0 < len → 2 < data_pages (transfer (M.page_len mem.new)
        (M.bytes mem.new) result.0 result.1 len) → result.1
        ≡ (request_place place.now).first * M.page_len mem.new + (request_place place.now).list_offset }
    ensures no_list { let t = transfer (M.page_len mem.new) (M.bytes mem.new) result.0 result.1 len in
        data_pages t ≤ 2 → M.bytes mem.new ≡ M.bytes mem.old }
    ensures only_list { let t = transfer (M.page_len mem.new) (M.bytes mem.new) result.0 result.1 len in
        0 < len → 2 < data_pages t → KeepsOutsideList (room t) result.1
        ((request_place place.now).second * M.page_len mem.new) (data_pages t)
        (M.bytes mem.old) (M.bytes mem.new) }
    ensures len { length (M.bytes mem.new) ≡ length (M.bytes mem.old) }
    ensures page { M.page_len mem.new ≡ M.page_len mem.old }
{
    if len == 0 {
        return (0, 0);
    }
    build(mem, &place.buffer, &place.list, len)
}

/// Writes what the host sends to the buffer of a request's data, if it sends anything.
#[tactic(auto, using(crate::proofs::DataLaws::none_written))]
fn write_sent<M: HostMemory>(mem: &mut M, buffer: &Buffer, request: &Outgoing, spans: &mut Spans)
    requires few { length_of request.now.transfer ≤ greatest_limit }
    requires sent { length (sent_by request.now.sends) ≡ bytes_from_host request.now.transfer }
    requires buffer { IsBuffer (M.bytes mem.old) (M.page_len mem.old)
        buffer.now.pages.now buffer.now.offset (length_of request.now.transfer) }
    ensures bytes { M.bytes mem.new ≡ written_at (M.bytes mem.old) (buffer_places
        (M.page_len mem.old) buffer.now.pages.now buffer.now.offset
        (length_of request.now.transfer)) (sent_by request.now.sends) }
    ensures len { length (M.bytes mem.new) ≡ length (M.bytes mem.old) }
    ensures page { M.page_len mem.new ≡ M.page_len mem.old }
{
    let Transfer::FromHost(len) = request.transfer else {
        return;
    };
    buffer.spans(mem, len as u32, spans);
    write_out(mem, spans, &request.sends);
}

/// Submits a request under the next command identifier: writes its list and what the host sends to
/// its place, and puts its entry in the ring. Returns the new tail. Section "Submission Queue
/// Entry".
pub(crate) fn submit<M: HostMemory>(
    mem: &mut M,
    pair: &mut QueuePair,
    place: &DataPlace,
    request: &Outgoing,
    spans: &mut Spans,
) -> u16
    requires few { length_of request.now.transfer ≤ greatest_limit }
    requires sent { length (sent_by request.now.sends) ≡ bytes_from_host request.now.transfer }
    requires place { IsPlaceFor (M.bytes mem.old) (M.page_len mem.old)
        (request_place place.now) (length_of request.now.transfer) }
    requires slot { HasFreeSlot pair.old (M.bytes mem.old) }
    ensures { (asked : Asked) → IsSubmittedAt (M.page_len mem.old) (request_place place.now)
        (request_as request.now asked) pair.old pair.new (M.bytes mem.old) (M.bytes mem.new)
        (M.page_len mem.new) result }
{
    let len = request.transfer.bytes() as u32;
    let (prp1, prp2) = point_to(mem, place, len);
    write_sent(mem, &place.buffer, request, spans);
    let mut entry = request.entry;
    entry.cid = pair.next_cid;
    entry.prp1 = prp1;
    entry.prp2 = prp2;
    let tail = pair.submission.push(mem, &entry).unwrap();
    pair.next_cid = (pair.next_cid + 1) % CID_COUNT;
    tail
}
