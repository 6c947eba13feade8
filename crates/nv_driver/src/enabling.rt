//! Enables and resets controllers.

ghost use Rattle.std.specs.Prelude.{◌≡◌, ◌<◌, ◌≤◌, All, IsOk, MatchResult, OnOk, length, map, slice_set};
ghost use Rattle.nv_queue.specs.Slots.{HoldsTags};
ghost use Rattle.nv_register.specs.Readiness.{is_ready};
ghost use Rattle.nv_register.specs.RegisterBank.{with_register_at};
ghost use Rattle.nv_register.specs.declared.readiness.Readiness.TheVariants.{Off};
ghost use Rattle.nv_model.specs.Step.{reset, reset_if, reset_where};
ghost use Rattle.nv_bus.specs.Bus.{IsBus, bank_at, enabled_in, state_written};
ghost use Rattle.nv_driver.specs.BringingUp.{Configures, Enables, EnablesFirst, Restarts};
ghost use Rattle.nv_driver.specs.BringingUp.{SetsQueues};
ghost use Rattle.nv_driver.specs.inner.BringingUp.{EndsUnready, GivesUp};
ghost use Rattle.nv_driver.specs.Driver.{IsPlaced};
ghost use Rattle.nv_driver.specs.Exchange.{IsReady};
ghost use Rattle.nv_driver.specs.inner.Exchange.{IsLeft, KeepsBelow, side};
ghost use Rattle.nv_driver.specs.QueuePair.{IsLaid, idle_bank, renewed_pair};
ghost use Rattle.nv_driver.specs.Layout.{pair_of, pairs_of};
ghost use Rattle.nv_driver.specs.Quiet.{IsQuiet, pair_value};
ghost use Rattle.nv_driver.specs.declared.error.DriverError.TheVariants.{NoReady};
ghost use Rattle.nv_driver.specs.inner.Registers.{with_queues};
ghost use Rattle.nv_driver.specs.Registers.{idle_banks, mps_of};
ghost use Rattle.nv_driver.specs.Settled.{IsSettled};

use crate::any_bus::AnyBus;
use crate::checked_geometry::CheckedGeometry;
use crate::error::DriverError;
use crate::layout::Place;
use crate::queue_pair::QueuePair;
use crate::zeroing::Zeroing;
use nv_host::HostMemory;
use nv_register::offset;

/// CC.EN, and the entry sizes of I/O queues: 64 and 16 bytes. Section "Controller Configuration".
const ENABLE: u32 = 0x0046_0001;

/// The greatest number of times that CSTS.RDY is read.
const READS: u32 = 16;

/// Returns CC.MPS: a page has two to this power times 4,096 bytes.
fn mps(page_size: u32) -> u32
    ensures value { result ≡ mps_of page_size }
    ensures few { result ≤ 4 }
{
    match page_size {
        4096 => 0,
        8192 => 1,
        16384 => 2,
        32768 => 3,
        _ => 4,
    }
}

/// Writes the CC of a controller, and waits until CSTS.RDY has the value that follows from it. If
/// this clears an EN that was 1, it resets the controller. Section "Controller Configuration",
/// Enable.
fn configure<B: AnyBus>(bus: &mut B, ctrl: u16, cc: u32, ready: bool) -> Result<(), DriverError>
    requires ctrl { B.is_lawful → ctrl < length (B.meaning bus.old).banks }
    requires follows { B.is_lawful → is_ready
        (with_register_at (bank_at (B.meaning bus.old).banks ctrl) 0x14 cc).readiness ≡ ready }
    ensures ok { B.is_lawful → IsOk result }
    ensures state { B.is_lawful → (B.meaning bus.new).state
        ≡ state_written (B.meaning bus.old) ctrl 0x14 cc }
    ensures banks { B.is_lawful → (B.meaning bus.new).banks
        ≡ slice_set (B.meaning bus.old).banks ctrl
        (with_register_at (bank_at (B.meaning bus.old).banks ctrl) 0x14 cc) }
    ensures bus { B.is_lawful → IsBus (B.meaning bus.old) → IsBus (B.meaning bus.new) }
    ensures steps { MatchResult result
        (λ _. Configures B.was_written B.was_read ctrl cc ready bus.old bus.new)
        (λ e. (e ≡ NoReady) × GivesUp B.was_written B.was_read ctrl cc ready bus.old bus.new) }
{
    bus.write(ctrl, offset::CC, cc);
    for _ in 0..READS {
        if (bus.read(ctrl, offset::CSTS) % 2 == 1) == ready {
            return Ok(());
        }
    }
    Err(DriverError::NoReady)
}

/// Sets the queues of a controller that is not enabled: how many entries each has, less one, and
/// where it begins. Sections "Admin Queue Attributes", "Admin Submission Queue Base Address" and
/// "Admin Completion Queue Base Address".
fn set_queues<B: AnyBus>(bus: &mut B, ctrl: u16, geometry: CheckedGeometry)
    requires ctrl { B.is_lawful → ctrl < length (B.meaning bus.old).banks }
    requires few { ctrl < 16 }
    requires off { B.is_lawful → (bank_at (B.meaning bus.old).banks ctrl).readiness ≡ Off }
    ensures state { B.is_lawful → (B.meaning bus.new).state ≡ (B.meaning bus.old).state }
    ensures banks { B.is_lawful → (B.meaning bus.new).banks ≡ slice_set (B.meaning bus.old).banks
        ctrl (with_queues (bank_at (B.meaning bus.old).banks ctrl) (pair_of geometry ctrl)) }
    ensures bus { B.is_lawful → IsBus (B.meaning bus.old) → IsBus (B.meaning bus.new) }
    ensures steps { SetsQueues B.was_written ctrl (pair_of geometry ctrl) bus.old bus.new }
{
    let less_one = u32::from(geometry.depth) - 1;
    let Place { sq, cq, .. } = geometry.place(ctrl);
    bus.write(ctrl, offset::AQA, (less_one << 16) + less_one);
    bus.write(ctrl, offset::ASQ_LOW, (sq % (1 << 32)) as u32);
    bus.write(ctrl, offset::ASQ_HIGH, (sq >> 32) as u32);
    bus.write(ctrl, offset::ACQ_LOW, (cq % (1 << 32)) as u32);
    bus.write(ctrl, offset::ACQ_HIGH, (cq >> 32) as u32);
}

/// Makes a controller ready with new rings at their places, and resets it if it was enabled. The
/// completion ring is zeroed. Section "Controller Initialization and Shutdown Processing".
fn enable<B: AnyBus + Zeroing, M: HostMemory>(
    bus: &mut B,
    ctrl: u16,
    mem: &mut M,
    pair: &QueuePair,
    geometry: CheckedGeometry,
) -> Result<(), DriverError>
    requires ctrl { B.is_lawful → ctrl < length (B.meaning bus.old).banks }
    requires few { ctrl < 16 }
    requires quiet { IsQuiet pair.now }
    requires pair { pair_value pair.now ≡ pair_of geometry ctrl }
    requires laid { IsLaid geometry.page_size (length (M.bytes mem.old)) (pair_value pair.now) }
    ensures ok { B.is_lawful → IsOk result }
    ensures state { B.is_lawful → (B.meaning bus.new).state
        ≡ reset_if (enabled_in (B.meaning bus.old).banks) (B.meaning bus.old).state ctrl }
    ensures banks { B.is_lawful → (B.meaning bus.new).banks ≡ slice_set (B.meaning bus.old).banks
        ctrl (idle_bank (mps_of geometry.page_size) geometry.page_size (pair_of geometry ctrl)) }
    ensures bus { B.is_lawful → IsBus (B.meaning bus.old) → IsBus (B.meaning bus.new) }
    ensures tags { OnOk result (HoldsTags (M.bytes mem.new) (pair_value pair.now).cq
        (pair_value pair.now).depth 0) }
    ensures others { KeepsBelow (length (M.bytes mem.old)) geometry.page_size
        (pair_value pair.now) (M.bytes mem.old) (M.bytes mem.new) }
    ensures len { length (M.bytes mem.new) ≡ length (M.bytes mem.old) }
    ensures page { M.page_len mem.new ≡ M.page_len mem.old }
    ensures steps { MatchResult result
        (λ _. Enables B.was_written B.was_read B.was_zeroed geometry ctrl
        bus.old (M.bytes mem.old) bus.new (M.bytes mem.new))
        (λ e. (e ≡ NoReady) × EndsUnready B.was_written B.was_read bus.new) }
{
    configure(bus, ctrl, 0, false)?;
    bus.zero(&pair.completion, mem);
    set_queues(bus, ctrl, geometry);
    configure(bus, ctrl, ENABLE + (mps(geometry.page_size) << 7), true)
}

/// Enables each controller with the rings of its queue pair. Those that were enabled are reset.
pub(crate) fn enable_all<B: AnyBus + Zeroing, M: HostMemory>(
    bus: &mut B,
    mem: &mut M,
    pairs: &[QueuePair],
    geometry: CheckedGeometry,
) -> Result<(), DriverError>
    requires bus { IsBus (B.meaning bus.old) }
    requires quiet { All IsQuiet pairs.now }
    requires pairs { map pair_value pairs.now
        ≡ pairs_of geometry (length (B.meaning bus.old).banks) }
    requires laid { All (IsLaid geometry.page_size (length (M.bytes mem.old)))
        (pairs_of geometry (length (B.meaning bus.old).banks)) }
    ensures ok { B.is_lawful → IsOk result }
    ensures state { B.is_lawful → (B.meaning bus.new).state
        ≡ reset_where (enabled_in (B.meaning bus.old).banks) (B.meaning bus.old).state }
    ensures banks { B.is_lawful → (B.meaning bus.new).banks
        ≡ idle_banks geometry.page_size (pairs_of geometry (length (B.meaning bus.old).banks)) }
    ensures bus { B.is_lawful → IsBus (B.meaning bus.new) }
    ensures settled { OnOk result (IsSettled geometry.page_size (M.bytes mem.new)
        (pairs_of geometry (length (B.meaning bus.old).banks))) }
    ensures len { length (M.bytes mem.new) ≡ length (M.bytes mem.old) }
    ensures page { M.page_len mem.new ≡ M.page_len mem.old }
    ensures steps { MatchResult result
        (λ _. EnablesFirst B.was_written B.was_read B.was_zeroed geometry
        (length (B.meaning bus.old).banks) bus.old (M.bytes mem.old) bus.new (M.bytes mem.new))
        (λ e. (e ≡ NoReady) × EndsUnready B.was_written B.was_read bus.new) }
{
    for ctrl in 0..bus.count() {
        enable(bus, ctrl, mem, &pairs[ctrl as usize], geometry)?;
    }
    Ok(())
}

/// Resets a controller that has no command outstanding: disables it, renews its rings and enables it
/// with them. Its queues stay set. Section "Controller Level Reset".
pub(crate) fn reset<B: AnyBus + Zeroing, M: HostMemory>(
    bus: &mut B,
    ctrl: u16,
    mem: &mut M,
    pair: &mut QueuePair,
    geometry: CheckedGeometry,
) -> Result<(), DriverError>
    requires ready { IsReady geometry (B.meaning bus.old) ctrl
        pair.old (M.page_len mem.old) (M.bytes mem.old) }
    requires placed { IsPlaced geometry ctrl (pair_value pair.old) }
    ensures ok { B.is_lawful → IsOk result }
    ensures state { B.is_lawful → (B.meaning bus.new).state ≡ reset (B.meaning bus.old).state ctrl }
    ensures left { B.is_lawful → IsLeft geometry ctrl (length (M.bytes mem.old))
        (renewed_pair (pair_value pair.old))
        (side (B.meaning bus.old) pair.old (M.page_len mem.old) (M.bytes mem.old))
        (side (B.meaning bus.new) pair.new (M.page_len mem.new) (M.bytes mem.new)) }
    ensures steps { MatchResult result
        (λ _. Restarts B.was_written B.was_read B.was_zeroed geometry ctrl
        bus.old (M.bytes mem.old) bus.new (M.bytes mem.new))
        (λ e. (e ≡ NoReady) × EndsUnready B.was_written B.was_read bus.new) }
{
    configure(bus, ctrl, 0, false)?;
    pair.renew(bus, mem);
    configure(bus, ctrl, ENABLE + (mps(geometry.page_size) << 7), true)
}
