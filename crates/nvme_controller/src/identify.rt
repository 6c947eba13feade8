//! What Identify would return, for a program in C that asks without a command.

ghost use Rattle.std.specs.Prelude.{◌≡◌, IfSome};
ghost use Rattle.nv_bus.specs.Bus.{IsBus};
ghost use Rattle.nv_controller.specs.Machine.{bus_of};
ghost use Rattle.nvme_controller.specs.Identify.{record_asked, record_bytes, record_number};
ghost use Rattle.nvme_controller.specs.Open.{IsOpen};

use crate::handle::Handle;
use nv_command::{Command, Reply};
use nv_controller::{Bus, Machine};
use nv_subsystem::RecordRoom;
use std::alloc::Global;

/// Copies the data of a controller or of a namespace that a command would return, and returns 1, or
/// 0 if it would return none or there is no such controller.
#[tactic(auto, using(crate::proofs::CountLaws::counted))]
fn put_record(machine: &Machine, ctrl: u16, command: &Command, page: &mut [u8; 4096]) -> i32
    requires { IsBus (bus_of machine.now) }
    ensures found { result ≡ record_number (record_asked machine.now ctrl command.now) }
    ensures page { page.new ≡ record_bytes (record_asked machine.now ctrl command.now) page.old }
{
    if ctrl >= machine.controllers() {
        return 0;
    }
    let mut room = RecordRoom::new();
    match machine.subsystem().answer(ctrl, command, &mut room) {
        Ok(Reply::Controller(data)) => {
            data.get().put(page);
            1
        }
        Ok(Reply::Namespace(data)) => {
            data.get().put(page);
            1
        }
        _ => 0,
    }
}

/// Copies what Identify returns for a controller, and returns 1, or 0 if there is no such
/// controller.
#[unsafe(no_mangle)]
pub extern "C" fn nvme_handle_identify(
    alloc: Global,
    handle: &mut Handle,
    ctrl: u16,
    page: &mut [u8; 4096],
) -> i32
    requires open { IsOpen handle.old.machine }
    ensures found { IfSome handle.old.machine
        (λ m. result ≡ record_number (record_asked m ctrl Command.IdentifyController)) }
    ensures page { IfSome handle.old.machine
        (λ m. page.new ≡ record_bytes (record_asked m ctrl Command.IdentifyController) page.old) }
    ensures stays { handle.new.machine ≡ handle.old.machine }
{
    let machine = handle.take(alloc);
    let found = put_record(&machine, ctrl, &Command::IdentifyController, page);
    handle.put(machine);
    found
}

/// Copies what Identify returns for a namespace that is attached to the controller, and returns 1,
/// or 0 if the controller would refuse the command or there is no such controller.
#[unsafe(no_mangle)]
pub extern "C" fn nvme_handle_active(
    alloc: Global,
    handle: &mut Handle,
    ctrl: u16,
    nsid: u32,
    page: &mut [u8; 4096],
) -> i32
    requires open { IsOpen handle.old.machine }
    ensures found { IfSome handle.old.machine
        (λ m. result ≡ record_number (record_asked m ctrl (Command.IdentifyNamespace nsid))) }
    ensures page { IfSome handle.old.machine (λ m. page.new
        ≡ record_bytes (record_asked m ctrl (Command.IdentifyNamespace nsid)) page.old) }
    ensures stays { handle.new.machine ≡ handle.old.machine }
{
    let machine = handle.take(alloc);
    let found = put_record(&machine, ctrl, &Command::IdentifyNamespace { nsid }, page);
    handle.put(machine);
    found
}

/// Copies what Identify returns for an allocated namespace, and returns 1, or 0 if the controller
/// would refuse the command or there is no such controller.
#[unsafe(no_mangle)]
pub extern "C" fn nvme_handle_allocated(
    alloc: Global,
    handle: &mut Handle,
    ctrl: u16,
    nsid: u32,
    page: &mut [u8; 4096],
) -> i32
    requires open { IsOpen handle.old.machine }
    ensures found { IfSome handle.old.machine
        (λ m. result ≡ record_number (record_asked m ctrl (Command.AllocatedNamespace nsid))) }
    ensures page { IfSome handle.old.machine (λ m. page.new
        ≡ record_bytes (record_asked m ctrl (Command.AllocatedNamespace nsid)) page.old) }
    ensures stays { handle.new.machine ≡ handle.old.machine }
{
    let machine = handle.take(alloc);
    let found = put_record(&machine, ctrl, &Command::AllocatedNamespace { nsid }, page);
    handle.put(machine);
    found
}
