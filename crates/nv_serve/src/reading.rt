//! Reading one request.

ghost use Rattle.std.specs.Prelude.{◌≡◌, ◌+◌, ◌<◌, ◌≤◌, ◌^◌, length};
ghost use Rattle.nv_serve.specs.Header.{most_data};
ghost use Rattle.nv_serve.specs.inner.Reading.{IsFilled, IsReady, IsTaken};

use crate::header::{HEADER_SIZE, Header, MOST_DATA};
use nv_stream::{READ_SIZE, Source};

/// How far a buffer was filled.
pub(crate) enum Filled {
    Whole,
    /// The source ended after this many bytes.
    Ended(usize),
    /// The source failed after this many bytes.
    Failed(usize),
}

/// What was read of a request.
pub(crate) enum ReadRequest {
    /// The whole request.
    Request(Header),
    /// Nothing: the source has ended.
    Nothing,
    /// A part of it: the source ended inside the request.
    Short,
    /// Its header, which asks for more data than is allowed.
    TooLong,
    /// A part of it, or nothing: the source failed.
    Failed,
}

/// Fills a buffer, in as many reads as it takes.
fn fill<R: Source>(source: &mut R, buf: &mut [u8]) -> Filled
    requires ready { IsReady (R.state source.old) }
    requires room { (R.state source.old).given + length buf.old < 2 ^ 64 }
    ensures filled { IsFilled result (R.state source.old) (R.state source.new) buf.new }
{
    let mut filled = 0;
    while filled < buf.len() {
        let end = buf.len().min(filled + READ_SIZE);
        match source.read(&mut buf[filled..end]) {
            None => return Filled::Failed(filled),
            Some(0) => return Filled::Ended(filled),
            Some(count) => filled += count,
        }
    }
    Filled::Whole
}

/// Reads one request: its header, and the data that the host sends.
pub(crate) fn take_request<R: Source>(
    source: &mut R,
    header: &mut [u8; HEADER_SIZE],
    sent: &mut [u8],
) -> ReadRequest
    requires ready { IsReady (R.state source.old) }
    requires room { (R.state source.old).given + (72 + most_data) < 2 ^ 64 }
    requires long { length sent.old ≡ most_data }
    ensures taken { IsTaken result (R.state source.old) (R.state source.new) header.new sent.new }
    ensures long { length sent.new ≡ most_data }
{
    match fill(source, header) {
        Filled::Whole => {}
        Filled::Ended(0) => return ReadRequest::Nothing,
        Filled::Ended(_) => return ReadRequest::Short,
        Filled::Failed(_) => return ReadRequest::Failed,
    }
    let said = Header::get(header);
    if said.length > MOST_DATA {
        return ReadRequest::TooLong;
    }
    let len = said.sent_length() as usize;
    match fill(source, &mut sent[..len]) {
        Filled::Whole => ReadRequest::Request(said),
        Filled::Ended(_) => ReadRequest::Short,
        Filled::Failed(_) => ReadRequest::Failed,
    }
}
