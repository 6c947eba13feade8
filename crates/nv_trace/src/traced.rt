//! Controllers with a trace.

ghost use Rattle.std.specs.Prelude.{◌≡◌, false};
ghost use Rattle.nv_controller.specs.Machine.{bus_of};

use crate::voice::Voice;
use crate::written::Written;
use nv_bus::Bus;
use nv_controller::Machine;
use nv_host::PagedMemory;
use nv_stream::Sink;

/// The controllers of a subsystem, as a bus that writes lines to a sink: one for each register
/// write, for each entry that a turn took and for each completion that it posted. Neither the lines
/// nor a failure of the sink change what the controllers do. After the sink has failed, nothing
/// more is written.
#[derive(Drop)]
pub struct Traced<S: Sink> {
    machine: Machine,
    pub(crate) voice: Voice<S>,
}

impl<S: Sink> Traced<S> {
    /// Creates a trace of what controllers do from now on.
    pub fn new(machine: Machine, sink: S) -> Traced<S>
        requires { (S.state sink).has_failed ≡ false }
        ensures machine { result.machine ≡ machine }
        ensures bus { ⟦<Traced<S> as Bus>⟧.meaning result ≡ bus_of machine }
        ensures sink { result.voice.sink ≡ sink }
    {
        Traced {
            machine,
            voice: Voice::new(sink),
        }
    }

    /// Returns whether the sink has failed, after which nothing more is written.
    pub fn is_silent(&self) -> bool
        ensures { result ≡ (S.state self.now.voice.sink).has_failed }
    {
        self.voice.is_silent()
    }
}

impl<S: Sink> Bus for Traced<S> {
    ghost use Rattle.nv_controller.specs.Exchanges.{turn_exchanges};
    ghost use Rattle.nv_controller.specs.Machine.{Writes, bus_of};
    ghost use Rattle.nv_controller.specs.Tags.{Turns};
    ghost use Rattle.nv_trace.specs.Said.{Says, SaysAll, exchange_texts, write_text};

    ghost meaning = { λ t. bus_of t.machine };

    // The machine did the write, to the subsystem and to its registers, and its line is in the sink.
    ghost was_written = { λ t ctrl offset dword u. Writes t.machine ctrl offset dword u.machine
        × Says S.state (write_text ctrl offset dword) t.voice.sink u.voice.sink };

    // The machine took the turn, with the phase tags in its logs, and the lines of the entries that
    // were taken and of their completions are in the sink.
    ghost was_turned = { λ t bytes ctrl most count u bytes'.
        Turns t.machine bytes ctrl most count u.machine bytes'
        × SaysAll S.state (exchange_texts ctrl (turn_exchanges count ctrl t.machine bytes))
        t.voice.sink u.voice.sink };

    fn controllers(&self) -> u16 {
        self.machine.controllers()
    }

    fn read32(&self, ctrl: u16, offset: u32) -> u32 {
        self.machine.read32(ctrl, offset)
    }

    fn write32(&mut self, ctrl: u16, offset: u32, dword: u32) {
        self.machine.write32(ctrl, offset, dword);
        let written = Written {
            ctrl,
            offset,
            dword,
        };
        self.voice.say(&written);
    }

    fn turn<M: PagedMemory>(&mut self, ctrl: u16, mem: &mut M, most: u16) -> u16 {
        self.machine.turn_with(ctrl, mem, most, &mut self.voice)
    }
}
