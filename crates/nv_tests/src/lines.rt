//! What a line asks for, as a value. Scripts show what each command makes of its words.

use nv_command::Command;
use nv_script::{Ask, CtrlList, Line, LineFault, OutputFormat, Query, Request, read_line};
use std::alloc::Global;
use std::process::Abort;

/// Returns whether a line was read without a fault and has this meaning.
fn says(read: &Result<Line, LineFault>, want: &Line) -> bool {
    match read {
        Ok(line) => line == want,
        Err(_) => false,
    }
}

/// Checks what a line asks of a subsystem with two controllers.
fn check_line(rt: &impl Abort, alloc: Global, line: &[u8], want: &Line) {
    let mut place = CtrlList::new();
    let read = read_line(alloc, line, 2, &mut place);
    assert!(rt; says(&read, want));
}

#[test]
fn reads_what_a_line_asks(rt: HostRuntime) {
    let list = Query::One {
        controller: 1,
        ask: Ask::Send(Command::AllocatedList { after: 2 }),
    };
    for (line, query, format) in [
        (
            "nvme list-ns /dev/nvme1n2 -a --namespace-id=0x3",
            list,
            OutputFormat::Normal,
        ),
        ("list -o json", Query::List, OutputFormat::Json),
    ] {
        let want = Line::Request(Request { query, format });
        check_line(&rt, rt.alloc(), line.as_bytes(), &want);
    }
    check_line(&rt, rt.alloc(), b" # c", &Line::Skipped);
}
