//! Operations on transfers between the host's memory and a controller.

ghost use Rattle.std.specs.Prelude.{◌≡◌, ◌∷◌, IfOk};

use crate::answer::{Answer, Answered};
use crate::arguments::OperationArguments;
use crate::conditions::{
    are_distinct, bytes_in, has_page, has_pages, holds_all, is_length, is_offset, lie_in,
};
use crate::error::OperationError;
use crate::session::Bench;
use nv_host::{FlatMemory, PageNo, PagedMemory, size_of_memory};
use nv_prp::{Buffer, ListPlace, Spans, build, copy_in, copy_out, walk};
use std::alloc::{AllocError, Global};

/// Answers the addresses and the lengths of spans.
fn shown(answer: Answer, spans: &Spans) -> Answered {
    let alloc = answer.alloc();
    let spans = spans.as_slice();
    let addresses: Vec<u64> = spans.iter().map(|span| span.address).collect(alloc)?;
    let lengths: Vec<u64> = spans.iter().map(|span| u64::from(span.len)).collect(alloc)?;
    answer
        .numbers("addresses", addresses.as_slice())?
        .numbers("lengths", lengths.as_slice())
}

/// Returns the pages of a list, and then those of a buffer.
fn all_pages(alloc: Global, list: &ListPlace, pages: &[PageNo]) -> Result<Vec<PageNo>, AllocError>
    ensures { IfOk result (λ all. all.items ≡ list.now.first ∷ list.now.second ∷ pages.now) }
{
    let mut all = Vec::from_slice(alloc, &[list.first, list.second])?;
    all.extend_from_slice(pages)?;
    Ok(all)
}

/// Builds the entries of a transfer of the first bytes of a buffer, and returns them.
fn build_entries(
    alloc: Global,
    memory: &mut FlatMemory,
    buffer: &Buffer,
    list: &ListPlace,
    len: u32,
) -> Result<(u64, u64), OperationError> {
    let page_size = memory.page_size();
    let pages = all_pages(alloc, list, buffer.pages)?;
    if !is_length(len) {
        return Err(OperationError::Length);
    }
    if !is_offset(buffer.offset, page_size, 4) || !is_offset(list.offset, page_size, 8) {
        return Err(OperationError::Offset);
    }
    if !has_page(memory, list.first) || !has_page(memory, list.second) {
        return Err(OperationError::NoPage);
    }
    if !has_pages(memory, buffer.pages) {
        return Err(OperationError::NoPage);
    }
    if !holds_all(buffer.pages, page_size, buffer.offset, len) {
        return Err(OperationError::TooFewPages);
    }
    if !are_distinct(pages.as_slice()) {
        return Err(OperationError::SamePages);
    }
    Ok(build(memory, buffer, list, len))
}

/// Finds the spans of the first bytes of a buffer.
fn spread_buffer(
    memory: &FlatMemory,
    buffer: &Buffer,
    len: u32,
    spans: &mut Spans,
) -> Result<(), OperationError> {
    let page_size = memory.page_size();
    if len > 1_048_576 {
        return Err(OperationError::Length);
    }
    if !is_offset(buffer.offset, page_size, 4) {
        return Err(OperationError::Offset);
    }
    if !has_pages(memory, buffer.pages) {
        return Err(OperationError::NoPage);
    }
    if !holds_all(buffer.pages, page_size, buffer.offset, len) {
        return Err(OperationError::TooFewPages);
    }
    buffer.spans(memory, len, spans);
    Ok(())
}

impl Bench {
    pub(crate) fn build(&mut self, given: &OperationArguments, answer: Answer) -> Answered {
        let buffer = Buffer {
            pages: given.pages(),
            offset: given.dword("offset"),
        };
        let list = ListPlace {
            first: given.dword("first"),
            second: given.dword("second"),
            offset: given.dword("list_offset"),
        };
        let len = given.dword("length");
        let (prp1, prp2) = build_entries(answer.alloc(), &mut self.memory, &buffer, &list, len)?;
        answer.number("prp1", prp1)?.number("prp2", prp2)
    }

    pub(crate) fn walk(&mut self, given: &OperationArguments, answer: Answer) -> Answered {
        let len = given.dword("length");
        if !is_length(len) {
            return Err(OperationError::Length);
        }
        let (prp1, prp2) = (given.qword("prp1"), given.qword("prp2"));
        walk(&self.memory, prp1, prp2, len, &mut self.spans)?;
        shown(answer, &self.spans)
    }

    pub(crate) fn spans(&mut self, given: &OperationArguments, answer: Answer) -> Answered {
        let buffer = Buffer {
            pages: given.pages(),
            offset: given.dword("offset"),
        };
        spread_buffer(
            &self.memory,
            &buffer,
            given.dword("length"),
            &mut self.spans,
        )?;
        shown(answer, &self.spans)
    }

    pub(crate) fn copy_out(&mut self, given: &OperationArguments, answer: Answer) -> Answered {
        let bytes = given.bytes("bytes");
        if !lie_in(self.spans.as_slice(), size_of_memory(&self.memory)) {
            return Err(OperationError::SpansOutside);
        }
        if bytes_in(&self.spans) != bytes.len() as u64 {
            return Err(OperationError::SpansLength);
        }
        copy_out(&mut self.memory, &self.spans, bytes);
        Ok(answer)
    }

    pub(crate) fn copy_in(&mut self, _: &OperationArguments, answer: Answer) -> Answered {
        if !lie_in(self.spans.as_slice(), size_of_memory(&self.memory)) {
            return Err(OperationError::SpansOutside);
        }
        let mut bytes = vec![in answer.alloc(); 0u8; bytes_in(&self.spans) as usize]?;
        copy_in(&self.memory, &self.spans, bytes.as_mut_slice());
        answer.bytes("bytes", bytes.as_slice())
    }
}
