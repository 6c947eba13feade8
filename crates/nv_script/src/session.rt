//! What a run keeps from line to line.

use crate::ends::RunEnd;
use nv_bus::Bus;
use nv_driver::{AnswerRoom, Driver, Geometry, Zeroing};
use nv_line::CtrlList;
use std::alloc::Global;
use std::array;

/// How many namespaces a controller is asked for at a time.
pub const BATCH: usize = 16;

/// Room for the answers to the commands of one request. It is allocated once for a run.
#[derive(Drop)]
pub struct Answers {
    pub first: AnswerRoom,
    pub second: AnswerRoom,
    pub batch: Box<[AnswerRoom; BATCH]>,
}

/// The state of a run between two lines: where it gets memory, the driver of its bus, room for
/// answers and for the controllers that a line lists, how many lines there were, and the status of
/// the last one that has one.
#[derive(Drop)]
pub struct Session {
    pub alloc: Global,
    pub driver: Driver,
    pub answers: Answers,
    pub listed: CtrlList,
    pub number: u64,
    pub status: u8,
}

impl Session {
    ghost use Rattle.std.specs.Prelude.{◌≡◌, IfOk, MatchResult, None, OnErr, length};
    ghost use Rattle.nv_bus.specs.Bus.{IsBus, enabled_in};
    ghost use Rattle.nv_driver.specs.BringingUp.{BringsUp, Still};
    ghost use Rattle.nv_driver.specs.Driver.{new_driver};
    ghost use Rattle.nv_driver.specs.Geometry.{geometry_fault};
    ghost use Rattle.nv_model.specs.Step.{reset_where};
    ghost use Rattle.nv_script.specs.Ends.{end_without};
    ghost use Rattle.nv_driver.specs.Linked.{IsLinked};
    ghost use Rattle.nv_script.specs.inner.Link.{IsFirst};

    /// Creates the state before the first line: allocates room for answers, and brings up a
    /// driver of this geometry, which resets each controller that was enabled. If it fails, the bus
    /// is untouched.
    pub(crate) fn begin<B: Bus + Zeroing>(
        alloc: Global,
        bus: &mut B,
        geometry: Geometry,
    ) -> Result<Session, RunEnd>
        requires bus { IsBus (B.meaning bus.old) }
        ensures state { IfOk result (λ _. (B.meaning bus.new).state
            ≡ reset_where (enabled_in (B.meaning bus.old).banks) (B.meaning bus.old).state) }
        ensures untouched { OnErr result (bus.new ≡ bus.old) }
        ensures up { IfOk result (λ _. BringsUp B.was_written (Still B.was_read) B.was_zeroed geometry
            (length (B.meaning bus.old).banks) bus.old bus.new) }
        ensures bus { IsBus (B.meaning bus.new) }
        ensures fault { MatchResult result (λ _. geometry_fault geometry ≡ None)
            (λ end. end ≡ end_without (geometry_fault geometry)) }
        ensures first { IfOk result (λ s. IsFirst (B.meaning bus.new).state s) }
        ensures driver { IfOk result (λ s. s.driver ≡ new_driver geometry (length (B.meaning bus.old).banks)) }
        ensures linked { IfOk result (λ s. IsLinked (B.meaning bus.new) s.driver) }
    {
        if let Err(field) = geometry.check() {
            return Err(RunEnd::Geometry(field));
        }
        let Ok(batch) = Box::new(alloc, array::from_fn(|_| AnswerRoom::new())) else {
            return Err(RunEnd::Memory);
        };
        let driver = Driver::bring_up(alloc, bus, geometry)?;
        Ok(Session {
            alloc,
            driver,
            answers: Answers {
                first: AnswerRoom::new(),
                second: AnswerRoom::new(),
                batch,
            },
            listed: CtrlList::new(),
            number: 0,
            status: 0,
        })
    }
}
