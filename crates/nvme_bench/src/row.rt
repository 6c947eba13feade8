//! The table of an operation's arguments.

use hex::FromHexError;
use nv_host::PageNo;
use nv_line::parse_number;
use std::alloc::{AllocError, Global};

/// The most pages of a transfer.
const MOST_PAGES: usize = 257;

/// The form of an argument's value: a number up to this one, at most so many bytes of two
/// hexadecimal digits each, or page numbers with commas between them.
#[derive(Clone, Copy, Debug, PartialEq, Eq)]
pub(crate) enum ValueForm {
    Number(u64),
    Bytes(usize),
    Pages,
}

/// A number of one byte.
pub(crate) const BYTE: ValueForm = ValueForm::Number(0xff);

/// A number of two bytes.
pub(crate) const WORD: ValueForm = ValueForm::Number(0xffff);

/// A number of four bytes.
pub(crate) const DWORD: ValueForm = ValueForm::Number(0xffff_ffff);

/// A number of eight bytes.
pub(crate) const QWORD: ValueForm = ValueForm::Number(u64::MAX);

/// The value of an argument.
#[derive(Debug, Drop)]
pub(crate) enum Value {
    Number(u64),
    Bytes(Vec<u8>),
    Pages(Vec<PageNo>),
}

/// An argument that an operation takes.
#[derive(Clone, Copy, Debug, PartialEq, Eq)]
pub(crate) struct Row {
    pub(crate) key: &'static str,
    pub(crate) form: ValueForm,
    pub(crate) is_needed: bool,
}

/// Reads page numbers.
fn read_pages(alloc: Global, text: &str) -> Result<Option<Vec<PageNo>>, AllocError> {
    let mut pages = Vec::new(alloc);
    for piece in text.split(',') {
        match parse_number(piece, 0, u64::from(u32::MAX)).map(u32::try_from) {
            Some(Ok(page)) if pages.len() < MOST_PAGES => pages.push(page)?,
            _ => return Ok(None),
        }
    }
    Ok(Some(pages))
}

/// Reads at most `most` bytes.
fn read_bytes(alloc: Global, most: usize, text: &str) -> Result<Option<Vec<u8>>, AllocError> {
    match hex::decode(alloc, text) {
        Ok(bytes) if bytes.len() <= most => Ok(Some(bytes)),
        Err(FromHexError::OutOfMemory) => Err(AllocError),
        _ => Ok(None),
    }
}

impl Row {
    /// Reads a value of this form from a text.
    pub(crate) fn read(self, alloc: Global, text: &str) -> Result<Option<Value>, AllocError> {
        match self.form {
            ValueForm::Number(most) => Ok(parse_number(text, 0, most).map(Value::Number)),
            ValueForm::Bytes(most) => Ok(read_bytes(alloc, most, text)?.map(Value::Bytes)),
            ValueForm::Pages => Ok(read_pages(alloc, text)?.map(Value::Pages)),
        }
    }
}
