//! Operations on the registers of a controller that has no other parts.

use crate::answer::{Answer, Answered};
use crate::arguments::OperationArguments;
use crate::rings::add_slots;
use crate::session::Bench;
use nv_register::{Readiness, RegisterBank};

impl Bench {
    pub(crate) fn power_on(&mut self, _: &OperationArguments, answer: Answer) -> Answered {
        self.bank = RegisterBank::new();
        Ok(answer)
    }

    pub(crate) fn read(&mut self, given: &OperationArguments, answer: Answer) -> Answered {
        let value = self.bank.read32(given.dword("offset"));
        answer.number("value", u64::from(value))
    }

    pub(crate) fn write(&mut self, given: &OperationArguments, answer: Answer) -> Answered {
        let (offset, value) = (given.dword("offset"), given.dword("value"));
        let resets = self.bank.stops_at(offset, value);
        self.bank.write32(offset, value);
        answer.number("resets", u64::from(resets))
    }

    pub(crate) fn registers(&mut self, _: &OperationArguments, answer: Answer) -> Answered {
        let readiness = &self.bank.readiness;
        let answer = answer
            .number("enabled", u64::from(readiness.is_enabled()))?
            .number("ready", u64::from(readiness.is_ready()))?
            .number("fatal", u64::from(readiness.is_fatal()))?;
        match readiness {
            Readiness::Ready { rings, .. } => {
                let answer = answer.number("page_size", u64::from(rings.page_size))?;
                add_slots(answer, &rings.submission, &rings.completion)
            }
            _ => Ok(answer),
        }
    }

    /// Sets the fatal status of a ready controller, as a turn does.
    pub(crate) fn fail(&mut self, _: &OperationArguments, answer: Answer) -> Answered {
        if let Readiness::Ready { fatal, .. } = &mut self.bank.readiness {
            *fatal = true;
        }
        Ok(answer)
    }
}
