//! Operations on the entries of commands.

use crate::answer::{Answer, Answered};
use crate::arguments::OperationArguments;
use crate::session::Bench;
use nv_command::{Command, Decoded, StatusCode, Transfer};
use nv_layout::{ControllerIds, CtrlList, Sqe, Status};

/// Returns the name of a command.
fn name_of(command: &Command) -> &'static str {
    match command {
        Command::IdentifyController => "identify_controller",
        Command::IdentifyNamespace { .. } => "identify_namespace",
        Command::AllocatedNamespace { .. } => "allocated_namespace",
        Command::ActiveList { .. } => "active_list",
        Command::AllocatedList { .. } => "allocated_list",
        Command::Create(_) => "create",
        Command::Delete { .. } => "delete",
        Command::Attachment { detach: false, .. } => "attach",
        Command::Attachment { detach: true, .. } => "detach",
        Command::Format(_) => "format",
        Command::GetFeature(_) => "get_feature",
        Command::SetFeature(_) => "set_feature",
        Command::GetLog(_) => "get_log",
    }
}

/// Adds the identifiers of controllers.
fn add_cntlids(answer: Answer, list: &ControllerIds) -> Answered {
    let cntlids: Vec<u64> = list
        .as_slice()
        .iter()
        .map(|cntlid| u64::from(*cntlid))
        .collect(answer.alloc())?;
    answer.numbers("cntlids", cntlids.as_slice())
}

/// Adds the name of a command with its NSID, and its own fields.
fn add_command(answer: Answer, command: &Command) -> Answered {
    let answer = answer.number(name_of(command), u64::from(command.nsid()))?;
    match command {
        Command::Create(wanted) => answer
            .number("nsze", wanted.nsze)?
            .number("ncap", wanted.ncap)?
            .number("flbas", u64::from(wanted.flbas))?
            .number("dps", u64::from(wanted.dps))?
            .number("nmic", u64::from(wanted.nmic)),
        Command::Attachment { list, .. } => add_cntlids(answer, list),
        Command::Format(asked) => answer
            .number("lbaf", u64::from(asked.lbaf.get()))?
            .number("mset", u64::from(asked.mset))?
            .number("pi", u64::from(asked.pi.get()))?
            .number("pil", u64::from(asked.pil))?
            .number("ses", u64::from(asked.ses.get())),
        Command::GetFeature(asked) => answer
            .number("fid", u64::from(asked.fid))?
            .number("sel", u64::from(asked.sel.get()))?
            .number("cdw11", u64::from(asked.cdw11)),
        Command::SetFeature(asked) => answer
            .number("fid", u64::from(asked.fid))?
            .number("save", u64::from(asked.save))?
            .number("cdw11", u64::from(asked.value)),
        Command::GetLog(asked) => answer
            .number("lid", u64::from(asked.lid))?
            .number("numd", u64::from(asked.dwords.zeros_based()))?
            .number("offset", asked.offset),
        _ => Ok(answer),
    }
}

/// Adds the direction and the length of a command's data, if it has some.
fn add_transfer(answer: Answer, transfer: Transfer) -> Answered {
    match transfer {
        Transfer::NoData => Ok(answer),
        Transfer::ToHost(len) => answer.number("to_host", len),
        Transfer::FromHost(len) => answer.number("from_host", len),
    }
}

impl Bench {
    /// Answers the command of an entry, and the entry that encodes it.
    pub(crate) fn command(&mut self, given: &OperationArguments, answer: Answer) -> Answered {
        let entry = Sqe::get(&given.array("entry"));
        let mut place = CtrlList::new();
        let command = Decoded::of(&entry)?.command(given.bytes("sent"), &mut place)?;
        let answer = add_command(answer, &command)?;
        let mut bytes = [0xff; 64];
        command.entry(entry.cid).put(&mut bytes);
        add_transfer(answer, command.transfer())?.bytes("entry", &bytes)
    }

    /// Answers a page of FFh that begins with the data that the host sends with a command.
    pub(crate) fn host_data(&mut self, given: &OperationArguments, answer: Answer) -> Answered {
        let entry = Sqe::get(&given.array("entry"));
        let mut place = CtrlList::new();
        let command = Decoded::of(&entry)?.command(given.bytes("sent"), &mut place)?;
        let mut page = [0xff; 4096];
        command.put(&mut page);
        answer.bytes("bytes", &page)
    }

    /// Answers the data transfer of an entry's command.
    pub(crate) fn transfer(&mut self, given: &OperationArguments, answer: Answer) -> Answered {
        let decoded = Decoded::of(&Sqe::get(&given.array("entry")))?;
        add_transfer(answer, decoded.transfer())
    }

    /// Answers the name of a status, in ASCII bytes.
    pub(crate) fn status_name(&mut self, given: &OperationArguments, answer: Answer) -> Answered {
        let name = StatusCode::name_of(Status::from_number(given.word("status")));
        answer.bytes("name", name.as_bytes())
    }
}
