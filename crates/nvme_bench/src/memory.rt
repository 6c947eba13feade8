//! Operations on the host's memory.

use crate::answer::{Answer, Answered};
use crate::arguments::OperationArguments;
use crate::error::OperationError;
use crate::session::Bench;
use nv_host::{FlatMemory, PagedMemory, is_page_size};

impl Bench {
    pub(crate) fn memory(&mut self, given: &OperationArguments, answer: Answer) -> Answered {
        let page_size = given.dword("page_size");
        if !is_page_size(page_size) {
            return Err(OperationError::PageSize);
        }
        self.memory = FlatMemory::new(answer.alloc(), page_size, given.dword("pages"))?;
        Ok(answer)
    }

    pub(crate) fn sizes(&mut self, _: &OperationArguments, answer: Answer) -> Answered {
        answer
            .number("page_size", u64::from(self.memory.page_size()))?
            .number("pages", u64::from(self.memory.pages()))
    }

    pub(crate) fn load(&mut self, given: &OperationArguments, answer: Answer) -> Answered {
        let mut bytes = vec![in answer.alloc(); 0u8; given.qword("length") as usize]?;
        self.memory
            .load(given.qword("address"), bytes.as_mut_slice())?;
        answer.bytes("bytes", bytes.as_slice())
    }

    pub(crate) fn store(&mut self, given: &OperationArguments, answer: Answer) -> Answered {
        self.memory
            .store(given.qword("address"), given.bytes("bytes"))?;
        Ok(answer)
    }

    pub(crate) fn page(&mut self, given: &OperationArguments, answer: Answer) -> Answered {
        let page_size = self.memory.page_size();
        let address = u64::from(given.dword("number")) * u64::from(page_size);
        let mut bytes = vec![in answer.alloc(); 0u8; page_size as usize]?;
        if self.memory.load(address, bytes.as_mut_slice()).is_err() {
            return Err(OperationError::NoPage);
        }
        answer.bytes("bytes", bytes.as_slice())
    }
}
