//! Executes `list`: it asks each controller for the namespaces that are attached to it.

ghost use Rattle.std.specs.Prelude.{◌≡◌, ◌<◌, ◌≤◌, ℕ, All, IfErr, IfOk, IsOk, OnOk, length, map};
ghost use Rattle.std.specs.Prelude.{slice_index, slice_index_or, [], ◌∷◌};
ghost use Rattle.nv_command.specs.declared.command.Command.{Command};
ghost use Rattle.nv_command.specs.declared.command.Command.TheVariants.{IdentifyNamespace};
ghost use Rattle.nv_model.specs.IdentifyController.{no_controller};
ghost use Rattle.nv_script.specs.Outcomes.{Send, order_of};
ghost use Rattle.nv_driver.specs.BringingUp.{Still};
ghost use Rattle.nv_driver.specs.Linked.{IsLinked};
ghost use Rattle.nv_driver.specs.inner.Linked.{next_cids_of};
ghost use Rattle.nv_script.specs.inner.Listing.{IsHandedOn, IsListed, ListLeaves, Standing};
ghost use Rattle.nv_script.specs.inner.Listing.{nsids_listed};
ghost use Rattle.nv_script.specs.Going.{Goes, GoesAll};
ghost use Rattle.nv_script.specs.Orders.{asking_for, batches_of_controller, namespace_batches};
ghost use Rattle.nv_script.specs.inner.Performing.{ListedAll};
ghost use Rattle.nv_script.specs.Shown.{listing_of, listing_after, no_listing};

use crate::performing::NoText;
use crate::session::{Answers, BATCH};
use nv_bus::Bus;
use nv_command::{Command, Reply};
use nv_driver::{Answer, AnswerRoom, Driver, Ringing, Zeroing};
use nv_layout::IdCtrl;
use nv_print::{DeviceList, ListedDevice};
use std::alloc::Global;
use std::array;

/// Returns the controller's data before any controller is asked, which is all zeros.
fn no_controller() -> IdCtrl
    ensures { result ≡ no_controller }
{
    IdCtrl::get(&[0; 4096])
}

/// The data of the controller that was asked last, and the devices so far.
#[derive(Drop)]
pub struct Listing {
    pub identity: IdCtrl,
    pub devices: DeviceList,
}

impl Listing {
    /// Creates a listing before the first command.
    fn new(alloc: Global) -> Listing
        ensures { result ≡ no_listing }
    {
        Listing {
            identity: no_controller(),
            devices: DeviceList::new(alloc),
        }
    }

    /// Keeps the answer to a command of a controller. A refusal is returned.
    fn keep(&mut self, ctrl: u16, command: &Command, answer: Answer) -> Result<(), NoText>
        ensures accepted { OnOk result (IsOk answer.entry) }
        ensures kept { OnOk result
            (self.new ≡ listing_after ctrl self.old (Send command.now) answer.entry) }
        ensures refused { IfErr result (λ stop. IsHandedOn stop (answer.entry ∷ [])) }
    {
        let reply = answer?;
        match (command, &reply) {
            (Command::IdentifyController, Reply::Controller(identity)) => {
                self.identity = *identity.get();
            }
            (Command::IdentifyNamespace { nsid }, Reply::Namespace(namespace)) => {
                self.devices.push(ListedDevice::new(ctrl, *nsid, &self.identity, namespace.get()))?;
            }
            _ => {}
        }
        Ok(())
    }

    /// Keeps the answers to some commands of a controller. A refusal is returned.
    fn keep_all(
        &mut self,
        ctrl: u16,
        commands: &[Command],
        answers: &[AnswerRoom],
    ) -> Result<(), NoText>
        requires len { length answers.now ≡ length commands.now }
        ensures accepted { OnOk result (All IsOk answers.now) }
        ensures kept { OnOk result
            (self.new ≡ listing_of self.old (map (order_of ctrl) commands.now) answers.now) }
        ensures refused { IfErr result (λ stop. IsHandedOn stop answers.now) }
    {
        for i in 0..commands.len() {
            self.keep(ctrl, &commands[i], answers[i].answer())?;
        }
        Ok(())
    }
}

/// Returns the NSIDs in a reply.
fn nsids_in<'a>(reply: &'a Reply) -> &'a [u32]
    ensures { result.now ≡ nsids_listed reply.now }
{
    match reply {
        Reply::List(nsids) => nsids.as_slice(),
        _ => &[],
    }
}

/// Returns the commands that ask a controller for namespaces, followed by commands that aren't
/// sent.
fn commands_for(nsids: &[u32]) -> [Command<'static>; BATCH]
    requires len { length nsids.now ≤ BATCH }
    ensures { (k : ℕ) (d : Command) → k < length nsids.now
        → slice_index_or result k d ≡ IdentifyNamespace (slice_index nsids.now k) }
{
    array::from_fn(|i| Command::IdentifyNamespace {
        nsid: if i < nsids.len() { nsids[i] } else { 0 },
    })
}

/// Asks a controller for at most sixteen of its namespaces at once.
fn list_batch<B: Bus + Ringing + Zeroing>(
    bus: &mut B,
    driver: &mut Driver,
    batch: &mut [AnswerRoom; BATCH],
    ctrl: u16,
    nsids: &[u32],
    listing: &mut Listing,
) -> Result<(), NoText>
    requires linked { IsLinked (B.meaning bus.old) driver.old }
    requires controller { ctrl < length driver.old.pairs }
    requires some { 0 < length nsids.now }
    requires most { length nsids.now ≤ BATCH }
    ensures left { (w : Standing)
        → IsListed w (B.meaning bus.old).state (next_cids_of driver.old) listing.old
        → ListLeaves result w (asking_for ctrl nsids.now ∷ [])
        (B.meaning bus.new).state (next_cids_of driver.new) listing.new
        (GoesAll (Goes B.meaning B.was_written (Still B.was_read) B.was_zeroed B.was_rung B.was_turned)
        driver.old bus.old driver.new bus.new) }
    ensures linked { IsLinked (B.meaning bus.new) driver.new }
    ensures pairs { length driver.new.pairs ≡ length driver.old.pairs }
{
    let count = nsids.len();
    let commands = commands_for(nsids);
    driver.admin_all(bus, ctrl, &commands[..count], &mut batch[..count]);
    listing.keep_all(ctrl, &commands[..count], &batch[..count])
}

/// Asks a controller for its namespaces, at most sixteen at a time.
fn list_namespaces<B: Bus + Ringing + Zeroing>(
    bus: &mut B,
    driver: &mut Driver,
    batch: &mut [AnswerRoom; BATCH],
    ctrl: u16,
    nsids: &[u32],
    listing: &mut Listing,
) -> Result<(), NoText>
    requires linked { IsLinked (B.meaning bus.old) driver.old }
    requires controller { ctrl < length driver.old.pairs }
    ensures left { (w : Standing)
        → IsListed w (B.meaning bus.old).state (next_cids_of driver.old) listing.old
        → ListLeaves result w (namespace_batches ctrl nsids.now)
        (B.meaning bus.new).state (next_cids_of driver.new) listing.new
        (GoesAll (Goes B.meaning B.was_written (Still B.was_read) B.was_zeroed B.was_rung B.was_turned)
        driver.old bus.old driver.new bus.new) }
    ensures linked { IsLinked (B.meaning bus.new) driver.new }
    ensures pairs { length driver.new.pairs ≡ length driver.old.pairs }
{
    let mut rest = nsids;
    while !rest.is_empty() {
        let count = rest.len().min(BATCH);
        list_batch(bus, driver, batch, ctrl, &rest[..count], listing)?;
        rest = &rest[count..];
    }
    Ok(())
}

/// Asks a controller for its data, for the NSIDs that are attached to it, and for each of these
/// namespaces.
fn list_controller<B: Bus + Ringing + Zeroing>(
    bus: &mut B,
    driver: &mut Driver,
    answers: &mut Answers,
    ctrl: u16,
    listing: &mut Listing,
) -> Result<(), NoText>
    requires linked { IsLinked (B.meaning bus.old) driver.old }
    requires controller { ctrl < length driver.old.pairs }
    ensures left { (w : Standing)
        → IsListed w (B.meaning bus.old).state (next_cids_of driver.old) listing.old
        → ListLeaves result w (batches_of_controller w.state ctrl)
        (B.meaning bus.new).state (next_cids_of driver.new) listing.new
        (GoesAll (Goes B.meaning B.was_written (Still B.was_read) B.was_zeroed B.was_rung B.was_turned)
        driver.old bus.old driver.new bus.new) }
    ensures linked { IsLinked (B.meaning bus.new) driver.new }
    ensures pairs { length driver.new.pairs ≡ length driver.old.pairs }
{
    let Answers {
        first,
        second,
        batch,
    } = answers;
    let identify = Command::IdentifyController;
    listing.keep(ctrl, &identify, driver.admin(bus, ctrl, &identify, first))?;
    let attached = driver.admin(bus, ctrl, &Command::ActiveList { after: 0 }, second)?;
    list_namespaces(bus, driver, batch, ctrl, nsids_in(&attached), listing)
}

/// Returns the namespaces that are attached to each controller.
pub(crate) fn list<B: Bus + Ringing + Zeroing>(
    alloc: Global,
    bus: &mut B,
    driver: &mut Driver,
    answers: &mut Answers,
) -> Result<DeviceList, NoText>
    requires linked { IsLinked (B.meaning bus.old) driver.old }
    ensures left { ListedAll result
        (B.meaning bus.old).state (next_cids_of driver.old)
        (B.meaning bus.new).state (next_cids_of driver.new)
        (GoesAll (Goes B.meaning B.was_written (Still B.was_read) B.was_zeroed B.was_rung B.was_turned)
        driver.old bus.old driver.new bus.new) }
    ensures linked { IsLinked (B.meaning bus.new) driver.new }
    ensures pairs { length driver.new.pairs ≡ length driver.old.pairs }
{
    let mut listing = Listing::new(alloc);
    for ctrl in 0..bus.controllers() {
        list_controller(bus, driver, answers, ctrl, &mut listing)?;
    }
    Ok(listing.devices)
}
