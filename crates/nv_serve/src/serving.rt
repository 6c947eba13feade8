//! Serves requests, one after another.

ghost use Rattle.std.specs.Prelude.{◌≡◌, IfOk, false, length, not};
ghost use Rattle.nv_bus.specs.Bus.{IsBus};
ghost use Rattle.nv_driver.specs.BringingUp.{Still};
ghost use Rattle.nv_driver.specs.Driver.{HasEntryPages};
ghost use Rattle.nv_driver.specs.Linked.{IsLinked};
ghost use Rattle.nv_stream.specs.Streams.{IsFresh, WritesAll};
ghost use Rattle.nv_serve.specs.Answer.{bytes_of};
ghost use Rattle.nv_serve.specs.Handling.{DoesAll, calls};
ghost use Rattle.nv_serve.specs.Header.{most_data};
ghost use Rattle.nv_serve.specs.Served.{IsServed, Serves, streams};
ghost use Rattle.nv_serve.specs.inner.Serving.{point_of};

use crate::answer::{AnswerHeader, Outcome};
use crate::ends::{RequestsEnd, ServeEnd};
use crate::handling::handle;
use crate::header::{HEADER_SIZE, MOST_DATA};
use crate::reading::{ReadRequest, take_request};
use nv_bus::Bus;
use nv_driver::{Driver, Geometry, Ringing, Zeroing};
use nv_stream::{Sink, Source, write_all};
use std::alloc::{AllocError, Global};

/// The greatest number of requests that one call serves.
pub const REQUEST_LIMIT: u32 = u32::MAX;

/// Writes an answer. If a write fails, the sink has taken a beginning of the answer.
fn respond<S: Sink>(out: &mut S, header: &AnswerHeader, payload: &[u8]) -> bool
    requires { (S.state out.old).has_failed ≡ false }
    ensures text { WritesAll result (S.state out.old).taken (S.state out.new).taken
        (bytes_of (record { header = header.now; payload = payload.now })) }
    ensures failure { (S.state out.new).has_failed ≡ not result }
{
    let mut bytes = [0; 12];
    header.put(&mut bytes);
    write_all(out, &bytes) && write_all(out, payload)
}

/// Answers requests until they end. `sent` holds their data, and `received` that of the answers.
fn serve_all<B: Bus + Zeroing + Ringing, R: Source, O: Sink>(
    bus: &mut B,
    driver: &mut Driver,
    source: &mut R,
    out: &mut O,
    sent: &mut [u8],
    received: &mut [u8],
) -> RequestsEnd
    requires linked { IsLinked (B.meaning bus.old) driver.old }
    requires room { HasEntryPages driver.old }
    requires fresh_source { IsFresh (R.state source.old) }
    requires fresh_out { (O.state out.old).has_failed ≡ false }
    requires sent_long { length sent.old ≡ most_data }
    requires received_long { length received.old ≡ most_data }
    ensures served { IsServed (point_of (B.meaning bus.old) driver.old)
        (λ requests answers. DoesAll
        (calls B.meaning B.was_written (Still B.was_read) B.was_zeroed B.was_rung B.was_turned)
        driver.old requests answers bus.old driver.new bus.new) result
        (B.meaning bus.new).state
        (streams (R.state source.old) (O.state out.old))
        (streams (R.state source.new) (O.state out.new)) }
    ensures linked { IsLinked (B.meaning bus.new) driver.new }
{
    let mut bytes = [0; HEADER_SIZE];
    for _ in 0..REQUEST_LIMIT {
        let header = match take_request(source, &mut bytes, sent) {
            ReadRequest::Request(header) => header,
            ReadRequest::Nothing => return RequestsEnd::Done,
            ReadRequest::Short => return RequestsEnd::Short,
            ReadRequest::TooLong => {
                let refusal = AnswerHeader::bare(Outcome::TooLong);
                return if respond(out, &refusal, &[]) {
                    RequestsEnd::TooLong
                } else {
                    RequestsEnd::Write
                };
            }
            ReadRequest::Failed => return RequestsEnd::Read,
        };
        let len = header.sent_length() as usize;
        let Ok(answer) = handle(bus, driver, &header, &sent[..len], received) else {
            return RequestsEnd::NoReady;
        };
        if !respond(out, &answer, &received[..answer.length as usize]) {
            return RequestsEnd::Write;
        }
    }
    RequestsEnd::Read
}

/// Creates a buffer of `len` bytes.
fn room(alloc: Global, len: usize) -> Result<Vec<u8>, AllocError>
    ensures { IfOk result (λ bytes. length bytes.items ≡ len) }
{
    vec![in alloc; 0u8; len]
}

/// Answers requests to the controllers of a bus, with a driver of this geometry. Each controller
/// that is enabled is reset. Then each request is executed and answered when it was read
/// completely, before more is read. At most 4,294,967,295 requests are served. If the geometry is
/// outside its limits or memory is refused, nothing is read or written, and the subsystem doesn't
/// change.
pub fn serve<B: Bus + Zeroing + Ringing, R: Source, O: Sink>(
    alloc: Global,
    bus: &mut B,
    geometry: Geometry,
    source: &mut R,
    out: &mut O,
) -> ServeEnd
    requires bus { IsBus (B.meaning bus.old) }
    requires fresh_source { IsFresh (R.state source.old) }
    requires fresh_out { (O.state out.old).has_failed ≡ false }
    ensures serves { Serves
        (calls B.meaning B.was_written (Still B.was_read) B.was_zeroed B.was_rung B.was_turned)
        geometry result bus.old bus.new (B.meaning bus.old) (B.meaning bus.new)
        (streams (R.state source.old) (O.state out.old))
        (streams (R.state source.new) (O.state out.new)) }
    // The bus can be used to serve again.
    ensures bus { IsBus (B.meaning bus.new) }
{
    if let Err(field) = geometry.check() {
        return ServeEnd::Geometry(field);
    }
    let most = MOST_DATA as usize;
    let (Ok(mut sent), Ok(mut received)) = (room(alloc, most), room(alloc, most)) else {
        return ServeEnd::Memory;
    };
    match Driver::bring_up_for_entries(alloc, bus, geometry) {
        Ok(mut driver) => ServeEnd::Requests(serve_all(
            bus,
            &mut driver,
            source,
            out,
            &mut sent,
            &mut received,
        )),
        Err(error) => ServeEnd::from(error),
    }
}
