//! Operations that read a record and write it again.

use crate::answer::{Answer, Answered};
use crate::arguments::OperationArguments;
use crate::session::Bench;
use nv_layout::{Cqe, CtrlList, ErrorEntry, IdCtrl, IdNs, Lbaf, NsList, Smart, Sqe, Status};

/// Answers the bytes of a record that is read from the bytes given, filled up with zeros.
macro_rules! rewrite {
    ($record:ident, $size:literal, $given:ident, $answer:ident) => {{
        let mut bytes = [0xff; $size];
        $record::get(&$given.array("bytes")).put(&mut bytes);
        $answer.bytes("bytes", &bytes)
    }};
}

impl Bench {
    pub(crate) fn sqe(&mut self, given: &OperationArguments, answer: Answer) -> Answered {
        rewrite!(Sqe, 64, given, answer)
    }

    pub(crate) fn cqe(&mut self, given: &OperationArguments, answer: Answer) -> Answered {
        rewrite!(Cqe, 16, given, answer)
    }

    pub(crate) fn error_entry(&mut self, given: &OperationArguments, answer: Answer) -> Answered {
        rewrite!(ErrorEntry, 64, given, answer)
    }

    pub(crate) fn smart(&mut self, given: &OperationArguments, answer: Answer) -> Answered {
        rewrite!(Smart, 512, given, answer)
    }

    pub(crate) fn lbaf(&mut self, given: &OperationArguments, answer: Answer) -> Answered {
        rewrite!(Lbaf, 4, given, answer)
    }

    pub(crate) fn id_ns(&mut self, given: &OperationArguments, answer: Answer) -> Answered {
        rewrite!(IdNs, 4096, given, answer)
    }

    pub(crate) fn id_ctrl(&mut self, given: &OperationArguments, answer: Answer) -> Answered {
        rewrite!(IdCtrl, 4096, given, answer)
    }

    pub(crate) fn ns_list(&mut self, given: &OperationArguments, answer: Answer) -> Answered {
        rewrite!(NsList, 4096, given, answer)
    }

    pub(crate) fn ctrl_list(&mut self, given: &OperationArguments, answer: Answer) -> Answered {
        let mut bytes = [0xff; 4096];
        CtrlList::get(&given.array("bytes"))?.put(&mut bytes);
        answer.bytes("bytes", &bytes)
    }

    pub(crate) fn status(&mut self, given: &OperationArguments, answer: Answer) -> Answered {
        let status = Status::from_number(given.word("status"));
        answer.number("status", u64::from(status.number()))
    }
}
