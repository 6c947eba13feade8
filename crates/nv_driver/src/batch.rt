//! A list of requests and their answers, with several requests outstanding.

ghost use Rattle.std.specs.Prelude.{◌≡◌, ◌+◌, ◌<◌, length, min};
ghost use Rattle.nv_driver.specs.Exchange.{IsReady, after_some};
ghost use Rattle.nv_driver.specs.inner.Exchange.{IsLeft, KeepsOutside, side};
ghost use Rattle.nv_driver.specs.Quiet.{pair_value};
ghost use Rattle.nv_driver.specs.Schedule.{state_after_all};
ghost use Rattle.nv_driver.specs.inner.UnderWay.{AreReceived};
ghost use Rattle.nv_driver.specs.UnderWay.{IsRunOf, requests_in};
ghost use Rattle.nv_driver.specs.UnderWay.{IsUnderWay, RunOn, numbered_of, run_of, run_on};
ghost use Rattle.nv_driver.specs.inner.Pace.{IsPaced, IsToldByPace, IsToldInTime, taken_by_turn};
ghost use Rattle.nv_model.specs.Conditions.{limit_of};

use crate::answer_room::AnswerRoom;
use crate::host_side::{HostSide, MOST_OUTSTANDING};
use crate::queue_pair::QueuePair;
use crate::requests::Requests;
use crate::ringing::Ringing;
use crate::submitting::submit;
use nv_bus::{Bus, CommandResult};
use nv_host::HostMemory;

/// The progress of a list of requests of one controller: how many were sent, how many answers were
/// collected, and how many of these the head doorbell has reported.
#[derive(Drop)]
pub struct Batch {
    ctrl: u16,
    sent: usize,
    collected: usize,
    told: usize,
}

impl Batch {
    /// Submits requests until as many as the geometry allows are outstanding, or none is left, and
    /// rings the tail doorbell if it submitted any. Section "Submission Queue y Tail Doorbell".
    fn send<B: Bus + Ringing, M: HostMemory>(
        &mut self,
        bus: &mut B,
        host: &mut HostSide<M>,
        pair: &mut QueuePair,
        requests: Requests,
    )
        ghost begun: { RunOn B }
        requires requests { IsRunOf begun.run requests }
        requires under_way { IsUnderWay B.was_written B.was_rung B.was_turned begun.start begun.run
            self.old.sent self.old.collected self.old (B.meaning bus.old) bus.old pair.old
            (M.page_len host.old.mem) (M.bytes host.old.mem) host.old.taken }
        requires near { IsToldInTime begun.run self.old }
        ensures under_way { IsUnderWay B.was_written B.was_rung B.was_turned begun.start begun.run
            self.new.sent self.new.collected self.new (B.meaning bus.new) bus.new pair.new
            (M.page_len host.new.mem) (M.bytes host.new.mem) host.new.taken }
        ensures batch { self.new ≡ record self.old {
          sent = min (self.old.collected + begun.run.geometry.window) (length begun.run.requests);
        } }
    {
        let geometry = pair.geometry();
        let room = usize::from(geometry.window) - (self.sent - self.collected);
        let end = self.sent + room.min(requests.len() - self.sent);
        let mut tail = None;
        for number in self.sent..end {
            let request = requests.outgoing(number);
            let count = geometry.page_count(request.transfer);
            let slot = number % MOST_OUTSTANDING;
            host.taken[slot].take(&mut pair.pages, count);
            let place = host.taken[slot].place(geometry);
            let spans = &mut host.data_room.spans;
            let next = submit(&mut host.mem, pair, &place, &request, spans);
            self.sent += 1;
            tail = Some(next);
        }
        if let Some(tail) = tail {
            bus.ring(self.ctrl, &host.mem, tail);
        }
    }

    /// Gives the controller a turn, and collects the answers that it posted: turns take the entries
    /// of a queue in their order. The head doorbell is written each time that the geometry's pace is
    /// reached, and if the turn took nothing. Section "Completion Queue Entry".
    fn turn<B: Bus + Ringing, M: HostMemory>(
        &mut self,
        bus: &mut B,
        host: &mut HostSide<M>,
        pair: &mut QueuePair,
        requests: Requests,
        answers: &mut [AnswerRoom],
    )
        ghost begun: { RunOn B }
        requires requests { IsRunOf begun.run requests }
        requires under_way { IsUnderWay B.was_written B.was_rung B.was_turned begun.start begun.run
            self.old.sent self.old.collected self.old (B.meaning bus.old) bus.old pair.old
            (M.page_len host.old.mem) (M.bytes host.old.mem) host.old.taken }
        requires received { AreReceived requests begun.run self.old.collected answers.old
            host.old.taken (M.bytes host.old.mem) host.old.last }
        requires some { self.old.collected < length begun.run.requests }
        requires full { self.old.sent
            ≡ min (self.old.collected + begun.run.geometry.window) (length begun.run.requests) }
        requires near { IsToldInTime begun.run self.old }
        ensures under_way { IsUnderWay B.was_written B.was_rung B.was_turned begun.start begun.run
            self.new.sent self.new.collected self.new (B.meaning bus.new) bus.new pair.new
            (M.page_len host.new.mem) (M.bytes host.new.mem) host.new.taken }
        ensures received { AreReceived requests.entry begun.run self.new.collected answers.new
            host.new.taken (M.bytes host.new.mem) host.new.last }
        ensures near { IsToldInTime begun.run self.new }
        ensures count { self.new.collected ≡ self.old.collected + taken_by_turn begun.run self.old }
        ensures paced { self.old.collected < self.new.collected
            → IsToldByPace begun.run.geometry.pace self.old.told self.new.told }
        ensures none { self.new.collected ≡ self.old.collected
            → (self.old.told < self.old.collected) × (self.new.told ≡ self.old.collected) }
    {
        let geometry = pair.geometry();
        let posted = bus.turn(self.ctrl, &mut host.mem, geometry.pace);
        if posted == 0 {
            pair.tell(bus, self.ctrl);
            self.told = self.collected;
            return;
        }
        let pace = usize::from(geometry.pace);
        for _ in 0..posted {
            let completion = pair.next_completion(&host.mem);
            let number = self.collected;
            let pages = &host.taken[number % MOST_OUTSTANDING];
            pages.give(&mut pair.pages);
            match requests {
                Requests::Commands(commands) => {
                    let place = pages.place(geometry);
                    let data_room = &mut host.data_room;
                    let command = &commands[number];
                    answers[number].receive(&host.mem, data_room, &place, command, &completion);
                }
                Requests::Entry { .. } => {}
            }
            host.last = CommandResult {
                dword0: completion.command_specific,
                status: completion.status,
            };
            self.collected += 1;
            if self.collected - self.told == pace {
                pair.tell(bus, self.ctrl);
                self.told = self.collected;
            }
        }
    }
}

/// Sends requests to a controller, several at a time, and waits for their answers. No request of
/// its queue pair is outstanding before or after.
pub(crate) fn exchange_all<B: Bus + Ringing, M: HostMemory>(
    bus: &mut B,
    ctrl: u16,
    host: &mut HostSide<M>,
    pair: &mut QueuePair,
    requests: Requests,
    answers: &mut [AnswerRoom],
)
    ghost begun: { RunOn B }
    requires run { begun
        ≡ run_on (run_of pair.old.geometry ctrl (B.meaning bus.old) pair.old
        (M.bytes host.old.mem) (requests_in (limit_of (B.meaning bus.old).state ctrl) requests))
        bus.old }
    requires ready { IsReady pair.old.geometry (B.meaning bus.old) ctrl
        pair.old (M.page_len host.old.mem) (M.bytes host.old.mem) }
    requires requests { IsRunOf begun.run requests }
    requires none { AreReceived requests begun.run 0 answers.old host.old.taken
        (M.bytes host.old.mem) host.old.last }
    ensures received { AreReceived requests.entry begun.run (length begun.run.requests) answers.new
        host.new.taken (M.bytes host.new.mem) host.new.last }
    ensures state { (B.meaning bus.new).state
        ≡ state_after_all ctrl (B.meaning bus.old).state (numbered_of begun.run) }
    ensures paced { IsPaced B.was_written B.was_rung B.was_turned begun.run begun.start bus.new
        (B.meaning bus.new) (M.bytes host.new.mem) host.new.taken }
    ensures others { KeepsOutside pair.old.geometry.page_size (pair_value pair.old)
        (M.bytes host.old.mem) (M.bytes host.new.mem) }
    ensures left { IsLeft pair.old.geometry ctrl (length (M.bytes host.old.mem))
        (after_some (length begun.run.requests) (pair_value pair.old))
        (side (B.meaning bus.old) pair.old (M.page_len host.old.mem) (M.bytes host.old.mem))
        (side (B.meaning bus.new) pair.new (M.page_len host.new.mem) (M.bytes host.new.mem)) }
{
    let mut batch = Batch {
        ctrl,
        sent: 0,
        collected: 0,
        told: 0,
    };
    while batch.collected < requests.len() {
        batch.send(bus, host, pair, requests);
        batch.turn(bus, host, pair, requests, answers);
    }
    pair.tell(bus, batch.ctrl);
}
