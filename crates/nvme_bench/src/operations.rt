//! The tables of operations.

use crate::answer::{Answer, Answered};
use crate::arguments::OperationArguments;
use crate::row::ValueForm::{Bytes, Number, Pages};
use crate::row::{BYTE, DWORD, QWORD, Row, WORD};
use crate::session::Bench;
use std::alloc::Global;

/// The most bytes that one operation moves.
const MOST_MOVED: usize = 1_048_576;

/// The most bytes of a subsystem file.
const MOST_OF_FILE: usize = 4_194_304;

/// The most bytes that the host sends with a command.
const MOST_SENT: usize = 8192;

/// What performs an operation with its arguments: it adds to an answer without a value.
type Perform = fn(&mut Bench, &OperationArguments, Answer) -> Answered;

/// An operation, with the arguments that it takes.
#[derive(Clone, Copy)]
pub(crate) struct Operation {
    name: &'static str,
    arguments: &'static [Row],
    perform: Perform,
    ghost callable: { IsAlwaysCallable perform },
}

/// Returns whether an argument is needed, which is so unless the table calls it optional.
macro_rules! is_needed {
    () => {
        true
    };
    (optional) => {
        false
    };
}

/// Makes a table of operations. Each has the name of the method that performs it.
macro_rules! operations {
    ($($name:ident($($key:ident $($optional:ident)?: $form:expr),* $(,)?);)*) => {
        [$(Operation {
            name: stringify!($name),
            arguments: &[$(Row {
                key: stringify!($key),
                form: $form,
                is_needed: is_needed!($($optional)?),
            }),*],
            perform: Bench::$name,
        }),*]
    };
}

/// The operations of the host's memory, PRP entries and spans.
const MEMORY: [Operation; 10] = operations! {
    memory(page_size: DWORD, pages: Number(16_384));
    sizes();
    load(address: QWORD, length: Number(MOST_MOVED as u64));
    store(address: QWORD, bytes: Bytes(MOST_MOVED));
    page(number: DWORD);
    build(
        pages: Pages, offset optional: DWORD, first: DWORD, second: DWORD,
        list_offset optional: DWORD, length: DWORD,
    );
    walk(prp1: QWORD, prp2: QWORD, length: DWORD);
    spans(pages: Pages, offset optional: DWORD, length: DWORD);
    copy_out(bytes: Bytes(MOST_MOVED));
    copy_in();
};

/// The operations of the registers of a controller.
const REGISTERS: [Operation; 5] = operations! {
    power_on();
    read(offset: DWORD);
    write(offset: DWORD, value: DWORD);
    registers();
    fail();
};

/// The operations of a pair of rings.
const RINGS: [Operation; 12] = operations! {
    rings(depth: WORD, submissions: QWORD, completions: QWORD);
    renew();
    zero();
    submit(entry: Bytes(64));
    tail(tail: DWORD);
    take();
    post(completion: Bytes(16));
    collect();
    free(head: WORD);
    tell();
    head(head: DWORD);
    slots();
};

/// The operations of the controllers of a subsystem and of a driver.
const CONTROLLERS: [Operation; 13] = operations! {
    subsystem(file optional: Bytes(MOST_OF_FILE));
    controllers();
    read32(ctrl: WORD, offset: DWORD);
    write32(ctrl: WORD, offset: DWORD, value: DWORD);
    turn(ctrl: WORD, most: WORD);
    counts(ctrl: WORD);
    log_entry(ctrl: WORD, index: WORD);
    bring_up(
        depth optional: DWORD, page_size optional: DWORD, offset optional: DWORD,
        list_offset optional: DWORD, window optional: DWORD, pace optional: DWORD,
    );
    admin(ctrl: WORD, entry: Bytes(64), sent optional: Bytes(MOST_SENT));
    admin_all(ctrl: WORD, entries: Bytes(4096), sent optional: Bytes(262_144));
    passthrough(
        ctrl: WORD, opcode: BYTE, nsid optional: DWORD, cdw10 optional: DWORD,
        cdw11 optional: DWORD, cdw12 optional: DWORD, cdw13 optional: DWORD,
        cdw14 optional: DWORD, cdw15 optional: DWORD, data optional: Bytes(MOST_MOVED),
        room optional: Number(MOST_MOVED as u64),
    );
    reset(ctrl: WORD);
    saw();
};

/// The operations of entries and records.
const RECORDS: [Operation; 14] = operations! {
    command(entry: Bytes(64), sent optional: Bytes(MOST_SENT));
    transfer(entry: Bytes(64));
    host_data(entry: Bytes(64), sent optional: Bytes(MOST_SENT));
    status_name(status: WORD);
    status(status: WORD);
    sqe(bytes: Bytes(64));
    cqe(bytes: Bytes(16));
    error_entry(bytes: Bytes(64));
    smart(bytes: Bytes(512));
    lbaf(bytes: Bytes(4));
    id_ns(bytes: Bytes(4096));
    id_ctrl(bytes: Bytes(4096));
    ns_list(bytes: Bytes(4096));
    ctrl_list(bytes: Bytes(4096));
};

impl Operation {
    /// Performs the operation with the arguments that these words give.
    fn perform(self, bench: &mut Bench, alloc: Global, words: &[&str]) -> Answered {
        let given = OperationArguments::read(alloc, words, self.arguments)?;
        (self.perform)(bench, &given, Answer::new(alloc))
    }
}

/// Performs the operation of this name, if it is one of these.
fn perform_one(
    operations: &[Operation],
    bench: &mut Bench,
    alloc: Global,
    name: &str,
    words: &[&str],
) -> Option<Answered> {
    let operation = operations
        .iter()
        .copied()
        .find(|operation| operation.name == name)?;
    Some(operation.perform(bench, alloc, words))
}

// (each table has a method of its own, since the proof that its functions can be called takes a
// time that grows with the square of their number)
impl Bench {
    fn perform_in_memory(&mut self, alloc: Global, name: &str, words: &[&str]) -> Option<Answered> {
        perform_one(&MEMORY[..], self, alloc, name, words)
    }

    fn perform_in_registers(
        &mut self,
        alloc: Global,
        name: &str,
        words: &[&str],
    ) -> Option<Answered> {
        perform_one(&REGISTERS[..], self, alloc, name, words)
    }

    fn perform_in_rings(&mut self, alloc: Global, name: &str, words: &[&str]) -> Option<Answered> {
        perform_one(&RINGS[..], self, alloc, name, words)
    }

    fn perform_in_controllers(
        &mut self,
        alloc: Global,
        name: &str,
        words: &[&str],
    ) -> Option<Answered> {
        perform_one(&CONTROLLERS[..], self, alloc, name, words)
    }

    fn perform_in_records(
        &mut self,
        alloc: Global,
        name: &str,
        words: &[&str],
    ) -> Option<Answered> {
        perform_one(&RECORDS[..], self, alloc, name, words)
    }

    /// Performs the operation of this name, if there is one, with the arguments that these words
    /// give.
    pub(crate) fn perform_named(
        &mut self,
        alloc: Global,
        name: &str,
        words: &[&str],
    ) -> Option<Answered> {
        if let Some(answered) = self.perform_in_memory(alloc, name, words) {
            return Some(answered);
        }
        if let Some(answered) = self.perform_in_registers(alloc, name, words) {
            return Some(answered);
        }
        if let Some(answered) = self.perform_in_rings(alloc, name, words) {
            return Some(answered);
        }
        if let Some(answered) = self.perform_in_controllers(alloc, name, words) {
            return Some(answered);
        }
        self.perform_in_records(alloc, name, words)
    }
}
