//! The state that operations work on.

use crate::answer::Answered;
use crate::device::DrivenDevice;
use crate::error::OperationError;
use crate::rings::RingPair;
use nv_host::FlatMemory;
use nv_line::{is_skipped_line, split_words};
use nv_prp::Spans;
use nv_register::RegisterBank;
use std::alloc::{AllocError, Global};

/// The state that operations work on: the host's memory, the spans of the last walk, the registers
/// of a controller, a pair of rings, and the controllers of the last subsystem.
#[derive(Drop)]
pub(crate) struct Bench {
    pub(crate) memory: FlatMemory,
    pub(crate) spans: Spans,
    pub(crate) bank: RegisterBank,
    pub(crate) rings: RingPair,
    pub(crate) device: Option<DrivenDevice>,
}

impl Bench {
    /// Creates a session with a memory of 16 pages of 4,096 zero bytes, no spans, the registers
    /// after power on, rings of 16 slots in the first two pages, and no controllers.
    #[tactic(auto, unfolding(nv_host::specs::Pages::IsPageSize))]
    pub(crate) fn new(alloc: Global) -> Result<Bench, AllocError> {
        match FlatMemory::new(alloc, 4096, 16) {
            Ok(memory) => Ok(Bench {
                memory,
                spans: Spans::new(),
                bank: RegisterBank::new(),
                rings: RingPair::new(16, 0x0000, 0x1000),
                device: None,
            }),
            Err(_) => Err(AllocError),
        }
    }

    /// Does what a line asks for, and returns the line that answers it. A blank line or a comment
    /// has no answer.
    pub(crate) fn answer(
        &mut self,
        alloc: Global,
        line: &[u8],
    ) -> Result<Option<String>, AllocError> {
        if is_skipped_line(line) {
            return Ok(None);
        }
        match self.perform(alloc, line) {
            Ok(answer) => Ok(Some(answer.line()?)),
            Err(error) if error.is_lack_of_memory() => Err(AllocError),
            Err(error) => Ok(Some(format!(in alloc; "{error}\n")?)),
        }
    }

    /// Performs the operation of a line.
    fn perform(&mut self, alloc: Global, line: &[u8]) -> Answered {
        let Ok(text) = str::from_utf8(line) else {
            return Err(OperationError::NotText);
        };
        let words = split_words(alloc, text)?;
        let Some((name, words)) = words.as_slice().split_first() else {
            return Err(OperationError::NoOperation);
        };
        self.perform_named(alloc, name, words)
            .unwrap_or(Err(OperationError::NoOperation))
    }
}
