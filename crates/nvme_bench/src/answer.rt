//! Lines that answer operations.

use crate::error::OperationError;
use std::alloc::{AllocError, Global};

/// What comes of an operation: its answer, or why it isn't done.
pub(crate) type Answered = Result<Answer, OperationError>;

/// A line that answers an operation: KEY=VALUE, once or more with spaces between them, or `done`.
#[derive(Debug, Drop)]
pub(crate) struct Answer {
    alloc: Global,
    text: String,
}

impl Answer {
    /// Creates an answer without a value.
    pub(crate) fn new(alloc: Global) -> Answer {
        Answer {
            alloc,
            text: String::new(alloc),
        }
    }

    pub(crate) fn alloc(&self) -> Global {
        self.alloc
    }

    /// Begins a value.
    fn key(&mut self, key: &str) -> Result<(), AllocError> {
        if !self.text.is_empty() {
            self.text.push_str(" ")?;
        }
        self.text.push_str(key)?;
        self.text.push_str("=")
    }

    /// Adds a number.
    pub(crate) fn number(mut self, key: &str, number: u64) -> Answered {
        self.key(key)?;
        write!(self.text, "0x{number:x}")?;
        Ok(self)
    }

    /// Adds numbers, with commas between them.
    pub(crate) fn numbers(mut self, key: &str, numbers: &[u64]) -> Answered {
        self.key(key)?;
        for (place, number) in numbers.iter().enumerate() {
            if place > 0 {
                self.text.push_str(",")?;
            }
            write!(self.text, "0x{number:x}")?;
        }
        Ok(self)
    }

    /// Adds bytes, in two hexadecimal digits each.
    pub(crate) fn bytes(mut self, key: &str, bytes: &[u8]) -> Answered {
        self.key(key)?;
        let digits = hex::encode(self.alloc, bytes)?;
        self.text.push_str(digits.as_str())?;
        Ok(self)
    }

    /// Returns the line, with its newline.
    pub(crate) fn line(self) -> Result<String, AllocError> {
        let mut text = self.text;
        if text.is_empty() {
            text.push_str("done")?;
        }
        text.push_str("\n")?;
        Ok(text)
    }
}
