//! Operations on the controllers of a subsystem, and on a driver of them.

use crate::answer::{Answer, Answered};
use crate::arguments::OperationArguments;
use crate::device::DrivenDevice;
use crate::error::OperationError;
use crate::session::Bench;
use nv_driver::Geometry;
use nv_subsystem::DEMO;

/// Returns the geometry that the arguments describe.
fn geometry_in(given: &OperationArguments) -> Geometry {
    Geometry {
        depth: given.dword_or("depth", 32),
        page_size: given.dword_or("page_size", 4096),
        offset: given.dword("offset"),
        list_offset: given.dword("list_offset"),
        window: given.dword_or("window", 1),
        pace: given.dword_or("pace", 1),
    }
}

impl Bench {
    fn device(&mut self) -> Result<&mut DrivenDevice, OperationError> {
        self.device.as_mut().ok_or(OperationError::NoController)
    }

    pub(crate) fn subsystem(&mut self, given: &OperationArguments, answer: Answer) -> Answered {
        let file = if given.has("file") {
            given.bytes("file")
        } else {
            DEMO.as_bytes()
        };
        self.device = Some(DrivenDevice::new(answer.alloc(), file)?);
        Ok(answer)
    }

    pub(crate) fn controllers(&mut self, _: &OperationArguments, answer: Answer) -> Answered {
        let count = match &self.device {
            Some(device) => device.controllers(),
            None => 0,
        };
        answer.number("controllers", u64::from(count))
    }

    pub(crate) fn read32(&mut self, given: &OperationArguments, answer: Answer) -> Answered {
        let value = self
            .device()?
            .read32(given.word("ctrl"), given.dword("offset"))?;
        answer.number("value", u64::from(value))
    }

    pub(crate) fn write32(&mut self, given: &OperationArguments, answer: Answer) -> Answered {
        let (offset, value) = (given.dword("offset"), given.dword("value"));
        self.device()?.write32(given.word("ctrl"), offset, value)?;
        Ok(answer)
    }

    pub(crate) fn turn(&mut self, given: &OperationArguments, answer: Answer) -> Answered {
        let Some(device) = &mut self.device else {
            return Err(OperationError::NoController);
        };
        let taken = device.turn(given.word("ctrl"), &mut self.memory, given.word("most"))?;
        answer.number("taken", u64::from(taken))
    }

    pub(crate) fn counts(&mut self, given: &OperationArguments, answer: Answer) -> Answered {
        let counts = self.device()?.counts(given.word("ctrl"))?;
        answer
            .number("refusals", counts.refusals)?
            .number("commands", counts.commands)
    }

    pub(crate) fn log_entry(&mut self, given: &OperationArguments, answer: Answer) -> Answered {
        let entry = self
            .device()?
            .log_entry(given.word("ctrl"), given.word("index"))?;
        let mut bytes = [0xff; 64];
        entry.put(&mut bytes);
        answer.bytes("bytes", &bytes)
    }

    pub(crate) fn bring_up(&mut self, given: &OperationArguments, answer: Answer) -> Answered {
        let pages = self.device()?.bring_up(answer.alloc(), geometry_in(given))?;
        answer.number("pages", pages)
    }

    pub(crate) fn admin(&mut self, given: &OperationArguments, answer: Answer) -> Answered {
        self.device()?.admin(given, answer)
    }

    pub(crate) fn admin_all(&mut self, given: &OperationArguments, answer: Answer) -> Answered {
        self.device()?.admin_all(given, answer)
    }

    pub(crate) fn passthrough(&mut self, given: &OperationArguments, answer: Answer) -> Answered {
        self.device()?.passthrough(given, answer)
    }

    pub(crate) fn reset(&mut self, given: &OperationArguments, answer: Answer) -> Answered {
        self.device()?.reset(given.word("ctrl"))?;
        Ok(answer)
    }

    pub(crate) fn saw(&mut self, _: &OperationArguments, answer: Answer) -> Answered {
        self.device()?.saw(answer)
    }
}
