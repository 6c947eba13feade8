//! Tests the texts of lines, sinks that take few bytes or fail, and a trace that begins while a
//! controller is enabled.

ghost use Rattle.std.specs.Prelude.{◌≡◌, ◌<◌, ◌≤◌, None, false, length};
ghost use Rattle.nv_bus.specs.Bus.{IsBus};
ghost use Rattle.nv_controller.specs.Machine.{bus_of};

use crate::event::Event;
use crate::line_text::LineText;
use crate::marked::Marked;
use crate::posted::Posted;
use crate::taken::TakenEntry;
use crate::traced::Traced;
use crate::voice::Voice;
use crate::written::Written;
use nv_bus::Bus;
use nv_controller::Machine;
use nv_host::{FlatMemory, PagedMemory};
use nv_layout::{Cqe, Sqe};
use nv_register::offset;
use nv_stream::{OverWrite, Sink, write_all};
use nv_subsystem::{DEMO, Subsystem};
use std::cmp;

/// Takes at most `most` bytes a write and 32 in all, and fails from then on.
#[derive(Drop)]
pub(crate) struct Small {
    bytes: [u8; 32],
    len: usize,
    most: usize,
    calls: u64,
    has_failed: bool,
    ghost room: { len ≤ 32 },
}

impl Small {
    fn new(most: usize) -> Small
        ensures { (⟦<Small as Sink>⟧.state result).has_failed ≡ false }
    {
        Small {
            bytes: [0; 32],
            len: 0,
            most,
            calls: 0,
            has_failed: false,
        }
    }

    fn has(&self, text: &[u8]) -> bool {
        &self.bytes[..self.len] == text
    }
}

impl Sink for Small {
    ghost state = { λ s. record { taken = None; has_failed = s.has_failed } };

    fn write(&mut self, bytes: &[u8]) -> Option<usize> {
        let count = cmp::min(cmp::min(bytes.len(), self.most), 32 - self.len);
        self.bytes[self.len..self.len + count].copy_from_slice(&bytes[..count]);
        self.len += count;
        self.calls = self.calls.saturating_add(1);
        self.has_failed = count == 0;
        Some(count)
    }
}

/// Returns whether this is the line of an event.
fn is_line<E: Event>(event: &E, text: &str) -> bool {
    let mut line = LineText::new();
    event.put(&mut line);
    let mut wanted = LineText::new();
    wanted.add(text);
    line.ended() == wanted.ended()
}

/// An event with any text.
struct Text(&'static str);

impl Event for Text {
    ghost text = { λ text. text.0.now };

    fn put(&self, line: &mut LineText) {
        line.add(self.0);
    }
}

#[test]
fn says_register_writes(rt: HostRuntime) {
    let rows = [
        (0x14, 0x0046_0001, "nvme1 write CC=0x460001"),
        (0x28, 0xffff_f000, "nvme1 write ASQ.low=0xfffff000"),
        (0x34, 1, "nvme1 write ACQ.high=0x1"),
        (0x1000, 2, "nvme1 write SQ0TDBL=0x2"),
        (0x1004, 0, "nvme1 write CQ0HDBL=0x0"),
        (0x16, 7, "nvme1 write 0x16=0x7"),
    ];
    for (offset, dword, text) in rows {
        let written = Written {
            ctrl: 1,
            offset,
            dword,
        };
        assert!(rt; is_line(&written, text), "{text}");
    }
}

#[test]
fn says_entries(rt: HostRuntime) {
    let mut bytes = [0; 64];
    bytes[0] = 0x15;
    bytes[2] = 0x34;
    bytes[3] = 0x12;
    bytes[4] = 3;
    bytes[25] = 0x40;
    bytes[40] = 1;
    let entry = Sqe::get(&bytes);
    let text = "nvme0 taken Namespace Attachment (0x15) cid=0x1234 nsid=0x3 prp1=0x4000 prp2=0x0 \
        cdw10=0x1";
    assert!(rt; is_line(&TakenEntry { ctrl: 0, entry }, text));
    let entry = Sqe::get(&[0xff; 64]);
    let text = "nvme15 taken unknown (0xff) cid=0xffff nsid=0xffffffff prp1=0xffffffffffffffff \
        prp2=0xffffffffffffffff fuse=0x3 psdt=0x3 mptr=0xffffffffffffffff cdw10=0xffffffff \
        cdw11=0xffffffff cdw12=0xffffffff cdw13=0xffffffff cdw14=0xffffffff cdw15=0xffffffff";
    assert!(rt; is_line(&TakenEntry { ctrl: 15, entry }, text));
}

#[test]
fn says_completions(rt: HostRuntime) {
    let bytes = [5, 0, 0, 0, 0, 0, 0, 0, 31, 0, 0, 0, 0x34, 0x12, 0x17, 0xc0];
    let completion = Cqe::get(&bytes);
    let text = "nvme2 posted cid=0x1234 status=0x600b refused dword0=0x5 sqhd=0x1f";
    assert!(rt;
        is_line(
            &Posted {
                ctrl: 2,
                completion
            },
            text
        )
    );
}

/// Enables controller 0 with queues of two entries, at 0h and 1000h.
fn enable(machine: &mut Machine)
    requires bus { IsBus (bus_of machine.old) }
    requires ctrl { 0 < length machine.old.banks }
    ensures bus { IsBus (bus_of machine.new) }
    ensures ctrl { 0 < length machine.new.banks }
{
    machine.write32(0, offset::AQA, 0x0001_0001);
    machine.write32(0, offset::ACQ_LOW, 0x1000);
    machine.write32(0, offset::CC, 0x0046_0001);
}

#[test]
#[tactic(auto, unfolding(nv_host::specs::Pages::IsPageSize))]
fn says_an_entry_as_it_was_before_its_data_overwrote_it(rt: HostRuntime) {
    let alloc = rt.alloc();
    let subsystem = Subsystem::from_toml(alloc, DEMO.as_bytes()).expect(&rt, "no subsystem");
    let mut machine = Machine::new(alloc, subsystem).expect(&rt, "no machine");
    assert!(rt; 0 < machine.controllers());
    enable(&mut machine);
    // Identify with CNS 02h, whose list goes to 0h, where the entry is
    let entry = Sqe {
        opcode: 0x06,
        cid: 7,
        cdw10: 0x02,
        ..Sqe::default()
    };
    let mut bytes = [0; 64];
    entry.put(&mut bytes);
    let mut mem = FlatMemory::new(alloc, 4096, 2).expect(&rt, "no memory");
    assert!(rt; mem.store(0, &bytes).is_ok());
    let mut bus = Traced::new(machine, OverWrite::new(Vec::new(alloc)));
    bus.write32(0, offset::TAIL_DOORBELL, 1);
    assert!(rt; bus.turn(0, &mut mem, 2) == 1);
    assert!(rt; mem.load(0, &mut bytes).is_ok());
    assert!(rt; bytes[0] == 1);
    let Traced { voice, .. } = bus;
    let text = "nvme0 write SQ0TDBL=0x1\n\
        nvme0 taken Identify (0x06) cid=0x7 nsid=0x0 prp1=0x0 prp2=0x0 cdw10=0x2\n\
        nvme0 posted cid=0x7 status=0x0 success dword0=0x0 sqhd=0x1\n";
    assert!(rt; voice.sink.into_inner().as_slice() == text.as_bytes());
}

#[test]
fn marks_each_line(rt: HostRuntime) {
    for most in [1, 2, 3, 32] {
        let mut marked = Marked::new(Small::new(most));
        assert!(rt; write_all(&mut marked, b"ab\n\nc"));
        assert!(rt; write_all(&mut marked, b"d\n"));
        assert!(rt; marked.sink.has(b"| ab\n| \n| cd\n"), "{most}");
    }
}

#[test]
fn tries_no_failed_sink_again(rt: HostRuntime) {
    let mut voice = Voice::new(Small::new(20));
    voice.say(&Text("a line of 22 bytes .."));
    assert!(rt; !voice.is_silent());
    voice.say(&Text("is cut short"));
    assert!(rt; voice.is_silent());
    let calls = voice.sink.calls;
    voice.say(&Text("is not said"));
    assert!(rt; voice.sink.calls == calls);
    assert!(rt; voice.sink.has(b"a line of 22 bytes ..\nis cut sho"));
}
