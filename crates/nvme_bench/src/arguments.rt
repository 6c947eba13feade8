//! The arguments of a line.

use crate::error::{OperationError, Slip};
use crate::row::{Row, Value};
use nv_host::PageNo;
use std::alloc::{AllocError, Global};

/// An argument that was read.
#[derive(Debug, Drop)]
struct Argument {
    key: String,
    value: Value,
}

/// The arguments of a line. What is missing is 0 or empty.
#[derive(Debug, Drop)]
pub(crate) struct OperationArguments {
    given: Vec<Argument>,
}

/// Returns the row that a word gives, and the text of its value. A word is KEY=VALUE, or the value
/// for the row at its place.
fn split_word<'a>(rows: &[Row], place: usize, word: &'a str) -> (Option<Row>, &'a str) {
    match word.split_once('=') {
        Some((key, text)) => (rows.iter().copied().find(|row| row.key == key), text),
        None => (rows.get(place).copied(), word),
    }
}

impl OperationArguments {
    /// Reads the words after an operation's name, by a table of its arguments.
    pub(crate) fn read(
        alloc: Global,
        words: &[&str],
        rows: &[Row],
    ) -> Result<OperationArguments, OperationError> {
        let mut arguments = OperationArguments {
            given: Vec::new(alloc),
        };
        for (place, word) in words.iter().enumerate() {
            let argument = arguments.next(alloc, rows, place, word)?;
            arguments.given.push(argument)?;
        }
        match arguments.missing(rows) {
            Some(place) => Err(Slip::Missing.at(place)),
            None => Ok(arguments),
        }
    }

    /// Reads the word at a place, after those before it.
    fn next(
        &self,
        alloc: Global,
        rows: &[Row],
        place: usize,
        word: &str,
    ) -> Result<Argument, OperationError> {
        let (Some(row), text) = split_word(rows, place, word) else {
            return Err(Slip::Unknown.at(place));
        };
        if self.has(row.key) {
            return Err(Slip::Repeated.at(place));
        }
        match row.read(alloc, text)? {
            Some(value) => Ok(Argument {
                key: String::from_str(alloc, row.key)?,
                value,
            }),
            None => Err(Slip::Wrong.at(place)),
        }
    }

    /// Returns the place of the first row that is needed and has no argument.
    fn missing(&self, rows: &[Row]) -> Option<usize> {
        rows.iter()
            .position(|row| row.is_needed && !self.has(row.key))
    }

    /// Returns the value of a key.
    fn value(&self, key: &str) -> Option<&Value> {
        for argument in self.given.as_slice() {
            if argument.key.as_str() == key {
                return Some(&argument.value);
            }
        }
        None
    }

    pub(crate) fn has(&self, key: &str) -> bool {
        self.value(key).is_some()
    }

    pub(crate) fn qword(&self, key: &str) -> u64 {
        match self.value(key) {
            Some(Value::Number(number)) => *number,
            _ => 0,
        }
    }

    pub(crate) fn dword(&self, key: &str) -> u32 {
        (self.qword(key) % 0x1_0000_0000) as u32
    }

    pub(crate) fn dword_or(&self, key: &str, otherwise: u32) -> u32 {
        if self.has(key) {
            self.dword(key)
        } else {
            otherwise
        }
    }

    pub(crate) fn word(&self, key: &str) -> u16 {
        (self.qword(key) % 0x1_0000) as u16
    }

    pub(crate) fn byte(&self, key: &str) -> u8 {
        (self.qword(key) % 0x100) as u8
    }

    pub(crate) fn bytes(&self, key: &str) -> &[u8] {
        match self.value(key) {
            Some(Value::Bytes(bytes)) => bytes.as_slice(),
            _ => &[],
        }
    }

    /// Returns the first `N` bytes of a key, filled up with zeros.
    pub(crate) fn array<const N: usize>(&self, key: &str) -> [u8; N] {
        array_of(self.bytes(key))
    }

    pub(crate) fn pages(&self) -> &[PageNo] {
        match self.value("pages") {
            Some(Value::Pages(pages)) => pages.as_slice(),
            _ => &[],
        }
    }
}

/// Returns the first `N` of the bytes, filled up with zeros.
pub(crate) fn array_of<const N: usize>(bytes: &[u8]) -> [u8; N] {
    let count = bytes.len().min(N);
    let mut array = [0; N];
    array[..count].copy_from_slice(&bytes[..count]);
    array
}
