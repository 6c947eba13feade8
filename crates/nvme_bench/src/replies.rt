//! Replies of a driver.

use crate::answer::{Answer, Answered};
use nv_command::Reply;
use nv_driver::Answer as DriverAnswer;
use nv_layout::ErrorEntries;

/// Adds the bytes of an error log.
fn add_errors(answer: Answer, entries: &ErrorEntries) -> Answered {
    let mut bytes = vec![in answer.alloc(); 0u8; 64 * entries.len()]?;
    entries.fill(0, bytes.as_mut_slice());
    answer.bytes("bytes", bytes.as_slice())
}

/// Adds the answer to a command: the bytes of a record or a log, a number, the status of a refusal,
/// or nothing.
pub(crate) fn add_reply(answer: Answer, given: &DriverAnswer) -> Answered {
    let mut page = [0xff; 4096];
    match given {
        Ok(Reply::Controller(controller)) => controller.get().put(&mut page),
        Ok(Reply::Namespace(namespace)) => namespace.get().put(&mut page),
        Ok(Reply::List(list)) => list.put(&mut page),
        Ok(Reply::Number(number)) => return answer.number("number", u64::from(*number)),
        Ok(Reply::Done) => return Ok(answer),
        Ok(Reply::Errors(entries)) => return add_errors(answer, entries),
        Ok(Reply::Smart(smart)) => {
            let mut bytes = [0xff; 512];
            smart.get().put(&mut bytes);
            return answer.bytes("bytes", &bytes);
        }
        Err(status) => return answer.number("status", u64::from(status.number())),
    }
    answer.bytes("bytes", &page)
}
