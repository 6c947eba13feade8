//! The host's side of one controller: its rings and its free pages.

ghost use Rattle.std.specs.Prelude.{◌≡◌, ◌+◌, ◌*◌, ◌<◌, ◌≤◌, All, IfOk, false, length, map, replicate, true};
ghost use Rattle.nv_host.specs.Bytes.{with_bytes};
ghost use Rattle.nv_queue.specs.Numbers.{slot_of};
ghost use Rattle.nv_queue.specs.Rings.{collected_one, known_to};
ghost use Rattle.nv_queue.specs.Slots.{HoldsTags, awaited_completion};
ghost use Rattle.nv_driver.specs.QueuePair.{renewed_pair};
ghost use Rattle.nv_driver.specs.Layout.{pair_of, pairs_of};
ghost use Rattle.nv_driver.specs.Quiet.{IsQuiet, pair_value};
ghost use Rattle.nv_driver.specs.inner.Pace.{IsTold};
ghost use Rattle.nv_driver.specs.inner.Submitting.{CanCollect};

use crate::checked_geometry::CheckedGeometry;
use crate::zeroing::Zeroing;
use nv_bus::Bus;
use nv_host::{HostMemory, Memory, PageSet};
use nv_layout::Cqe;
use nv_queue::{CompletionRing, SubmitRing};
use nv_register::offset;
use std::alloc::Global;

/// The rings and the pages of one controller, and their geometry.
#[derive(Drop)]
pub struct QueuePair {
    pub submission: SubmitRing,
    pub completion: CompletionRing,
    /// The command identifier of the next command.
    pub next_cid: u16,
    geometry: CheckedGeometry,
    /// The pages that no outstanding command has.
    pub pages: PageSet,
}

impl QueuePair {
    /// Creates the queue pair of a controller before its first command.
    pub(crate) fn new(
        alloc: Global,
        geometry: CheckedGeometry,
        ctrl: u16,
    ) -> Result<QueuePair, Memory>
        requires ctrl { ctrl < 16 }
        ensures quiet { IfOk result IsQuiet }
        ensures pair { IfOk result (λ pair. pair_value pair ≡ pair_of geometry ctrl) }
    {
        let place = geometry.place(ctrl);
        let pages = PageSet::new(alloc, place.first_page, place.page_count)?;
        Ok(QueuePair {
            submission: SubmitRing::new(place.sq, geometry.depth),
            completion: CompletionRing::new(place.cq, geometry.depth),
            next_cid: 0,
            geometry,
            pages,
        })
    }

    /// Returns the geometry, which never changes.
    pub(crate) fn geometry(&self) -> CheckedGeometry
        ensures { result ≡ self.now.geometry }
    {
        self.geometry
    }

    /// Makes the rings begin anew, after it zeroes the completion ring. No command must be
    /// outstanding. The command identifiers continue.
    pub(crate) fn renew<Z: Zeroing, M: HostMemory>(&mut self, zeroing: &Z, mem: &mut M)
        requires quiet { IsQuiet self.old }
        requires inside { self.old.completion.base + 16 * self.old.completion.depth
            ≤ length (M.bytes mem.old) }
        ensures quiet { IsQuiet self.new }
        ensures pair { pair_value self.new ≡ renewed_pair (pair_value self.old) }
        ensures bytes { M.bytes mem.new ≡ with_bytes (M.bytes mem.old) self.old.completion.base
            (replicate (16 * self.old.completion.depth) 0) }
        ensures tags { HoldsTags (M.bytes mem.new) self.old.completion.base
            self.old.submission.depth 0 }
        ensures page { M.page_len mem.new ≡ M.page_len mem.old }
        ensures zeroed { Z.was_zeroed zeroing.now self.old.completion.base
            self.old.completion.depth (M.bytes mem.old) (M.bytes mem.new) }
    {
        zeroing.zero(&self.completion, mem);
        self.completion.renew();
        self.submission.renew();
    }

    /// Collects the next completion, which was posted, and frees the slots of the submissions that
    /// were taken. Section "Completion Queue Entry".
    pub(crate) fn next_completion<M: HostMemory>(&mut self, mem: &M) -> Cqe
        requires { CanCollect self.old (M.bytes mem.now) }
        ensures value { result ≡ awaited_completion (M.bytes mem.now) self.old.completion }
        ensures pair { self.new ≡ record self.old {
          submission = known_to self.old.submission result.sq_head;
          completion = collected_one self.old.completion;
        } }
    {
        let completion = self.completion.poll(mem).unwrap();
        self.submission.freed(completion.sq_head);
        completion
    }

    /// Writes the head doorbell if completions were collected since the last write. Section
    /// "Completion Queue y Head Doorbell".
    pub(crate) fn tell<B: Bus>(&mut self, bus: &mut B, ctrl: u16)
        requires { ctrl < length (B.meaning bus.old).banks }
        ensures told { IsTold ctrl self.old (B.meaning bus.old) self.new (B.meaning bus.new) }
        ensures written { self.old.completion.untold ≡ true → B.was_written bus.old ctrl 0x1004
            (slot_of self.old.completion.depth self.old.completion.collected) bus.new }
        ensures silent { self.old.completion.untold ≡ false → bus.new ≡ bus.old }
    {
        if let Some(head) = self.completion.head_to_tell() {
            bus.write32(ctrl, offset::HEAD_DOORBELL, u32::from(head));
        }
    }
}

/// Creates the queue pairs of `count` controllers before their first command.
#[tactic(auto, using(crate::proofs::MemoryLaws::quiet_more, crate::proofs::MemoryLaws::pairs_more))]
pub(crate) fn new_pairs(
    alloc: Global,
    geometry: CheckedGeometry,
    controllers: u16,
) -> Result<Vec<QueuePair>, Memory>
    requires controllers { controllers ≤ 16 }
    ensures quiet { IfOk result (λ pairs. All IsQuiet pairs.items) }
    ensures pairs { IfOk result
        (λ pairs. map pair_value pairs.items ≡ pairs_of geometry controllers) }
{
    let mut pairs = Vec::new(alloc);
    for ctrl in 0..controllers {
        let pair = QueuePair::new(alloc, geometry, ctrl)?;
        if pairs.push(pair).is_err() {
            return Err(Memory);
        }
    }
    Ok(pairs)
}
