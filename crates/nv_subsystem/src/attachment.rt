//! Namespace Attachment: when an attach or a detach is refused, and what it changes. Section
//! "Namespace Attachment command".

ghost use Rattle.std.specs.Prelude.{◌≡◌, ℕ, false, true, All};
ghost use Rattle.nv_model.specs.Attachment.{attach_rows, attachment_rows, count_with, detach_rows};
ghost use Rattle.nv_model.specs.Attachment.{has_one_attached};
ghost use Rattle.nv_model.specs.Attachment.{is_ascending, is_known, is_list_of, is_listed};
ghost use Rattle.nv_model.specs.Attachment.{is_private};
ghost use Rattle.nv_model.specs.Attachment.{lacks_one_attached, with_attachments};
ghost use Rattle.nv_subsystem.specs.inner.Attachments.{HasPlace, changed_by};
ghost use Rattle.nv_subsystem.specs.inner.ControllerView.{Becomes, EachBecomes, controller_view};
ghost use Rattle.nv_model.specs.Management.{with_attached, with_nsids};
ghost use Rattle.nv_model.specs.Conditions.{is_valid};
ghost use Rattle.nv_model.specs.inner.Conditions.{Checks};
ghost use Rattle.nv_subsystem.specs.Sound.{IsSized};

use crate::controller::Controller;
use crate::subsystem::Subsystem;
use nv_command::{Refusal, StatusCode};

/// Returns whether a list of controller identifiers names the controller.
fn is_listed(ids: &[u16], controller: &Controller) -> bool
    ensures { result ≡ is_listed ids.now (controller_view controller.now) }
{
    ids.iter().any(|id| *id == controller.identity.cntlid)
}

/// Returns whether the numbers strictly ascend.
fn is_ascending(ids: &[u16]) -> bool
    ensures { result ≡ is_ascending ids.now }
{
    ids.iter()
        .zip(ids.iter().skip(1))
        .all(|(id, next)| *id < *next)
}

/// A change of what each controller has attached.
#[derive(Clone, Copy)]
pub(crate) enum AttachmentChange<'a> {
    /// Attaches a namespace to the listed controllers.
    Attach { nsid: u32, ids: &'a [u16] },
    /// Detaches a namespace from the listed controllers.
    Detach { nsid: u32, ids: &'a [u16] },
    /// Detaches a namespace from each controller.
    DetachEverywhere { nsid: u32 },
    /// Detaches all namespaces from each controller.
    DetachAll,
}

impl Controller {
    /// Changes what the controller has attached.
    fn change(&mut self, change: AttachmentChange<'_>)
        requires { (nn : ℕ) × IsSized nn self.old × HasPlace nn change }
        ensures { Becomes (with_nsids (changed_by change.entry)) self.old self.new }
    {
        match change {
            AttachmentChange::Attach { nsid, ids } => {
                if is_listed(ids, self) {
                    self.attach(nsid);
                }
            }
            AttachmentChange::Detach { nsid, ids } => {
                if is_listed(ids, self) {
                    self.detach(nsid);
                }
            }
            AttachmentChange::DetachEverywhere { nsid } => self.detach(nsid),
            AttachmentChange::DetachAll => self.detach_all(),
        }
    }
}

/// Changes what each controller has attached.
fn change_each(controllers: &mut [Controller], change: AttachmentChange<'_>)
    requires { (nn : ℕ) × All (IsSized nn) controllers.old × HasPlace nn change }
    ensures { EachBecomes (with_nsids (changed_by change.entry)) controllers.old controllers.new }
{
    for controller in controllers.iter_mut() {
        controller.change(change);
    }
}

impl Subsystem {
    /// Returns whether a controller has the identifier.
    fn is_known(&self, id: u16) -> bool
        ensures { result ≡ is_known self.now id }
    {
        self.controllers
            .iter()
            .any(|controller| id == controller.identity.cntlid)
    }

    /// Returns whether a list names some controllers, in ascending order.
    fn is_list_of(&self, ids: &[u16]) -> bool
        ensures { result ≡ is_list_of self.now ids.now }
    {
        if ids.is_empty() {
            return false;
        }
        is_ascending(ids) && ids.iter().all(|id| self.is_known(*id))
    }

    /// Returns whether at most one controller may have the namespace attached.
    fn is_private(&self, nsid: u32) -> bool
        ensures { result ≡ is_private self.now nsid }
    {
        match self.slots.get(nsid) {
            Some(namespace) => !namespace.shared,
            None => false,
        }
    }

    /// Returns whether any listed controller has the namespace attached.
    fn has_one_attached(&self, nsid: u32, ids: &[u16]) -> bool
        ensures { result ≡ has_one_attached self.now nsid ids.now }
    {
        self.controllers.iter().any(|controller| is_listed(ids, controller)
            && controller.attached.contains(nsid))
    }

    /// Returns whether any listed controller doesn't have the namespace attached.
    fn lacks_one_attached(&self, nsid: u32, ids: &[u16]) -> bool
        ensures { result ≡ lacks_one_attached self.now nsid ids.now }
    {
        self.controllers.iter().any(|controller| is_listed(ids, controller)
            && !controller.attached.contains(nsid))
    }

    /// Returns how many controllers have the namespace attached or are listed.
    fn count_with(&self, nsid: u32, ids: &[u16]) -> usize
        ensures { result ≡ count_with self.now nsid ids.now }
    {
        self.controllers
            .iter()
            .filter(|controller| {
                controller.attached.contains(nsid) || is_listed(ids, controller)
            })
            .count()
    }

    /// Refuses an attach by the first condition that holds. The conditions are in the order of the
    /// rows.
    fn check_attach(&self, nsid: u32, ids: &[u16]) -> Result<(), Refusal>
        ensures { Checks (attach_rows self.now nsid ids.now) result }
    {
        if !self.is_valid(nsid) {
            Err(Refusal::from(StatusCode::InvalidNamespaceOrFormat))
        } else if !self.slots.contains(nsid) {
            Err(Refusal::from(StatusCode::InvalidFieldInCommand))
        } else if !self.is_list_of(ids) {
            Err(Refusal::from(StatusCode::ControllerListInvalid))
        } else if self.has_one_attached(nsid, ids) {
            Err(Refusal::from(StatusCode::NamespaceAlreadyAttached))
        } else if self.is_private(nsid) && self.count_with(nsid, ids) > 1 {
            Err(Refusal::from(StatusCode::NamespaceIsPrivate))
        } else {
            Ok(())
        }
    }

    /// Refuses a detach by the first condition that holds. The conditions are in the order of the
    /// rows.
    fn check_detach(&self, nsid: u32, ids: &[u16]) -> Result<(), Refusal>
        ensures { Checks (detach_rows self.now nsid ids.now) result }
    {
        if !self.is_valid(nsid) {
            Err(Refusal::from(StatusCode::InvalidNamespaceOrFormat))
        } else if !self.slots.contains(nsid) {
            Err(Refusal::from(StatusCode::InvalidFieldInCommand))
        } else if !self.is_list_of(ids) {
            Err(Refusal::from(StatusCode::ControllerListInvalid))
        } else if self.lacks_one_attached(nsid, ids) {
            Err(Refusal::from(StatusCode::NamespaceNotAttached))
        } else {
            Ok(())
        }
    }

    /// Refuses an attach or a detach by the first condition that holds.
    pub(crate) fn check_attachment(
        &self,
        nsid: u32,
        detach: bool,
        ids: &[u16],
    ) -> Result<(), Refusal>
        ensures { Checks (attachment_rows self.now nsid detach ids.now) result }
    {
        if detach {
            self.check_detach(nsid, ids)
        } else {
            self.check_attach(nsid, ids)
        }
    }

    /// Changes what each controller has attached.
    pub(crate) fn change_each(&mut self, change: AttachmentChange<'_>)
        requires { HasPlace self.old.nn change }
        ensures { self.new ≡ with_attached self.old (changed_by change.entry) }
    {
        change_each(&mut self.controllers, change);
    }

    /// Attaches a namespace to all listed controllers, or detaches it from them.
    pub(crate) fn change_attachment(&mut self, nsid: u32, detach: bool, ids: &[u16])
        requires { detach ≡ false → is_valid self.old nsid ≡ true }
        ensures { self.new ≡ with_attachments self.old nsid detach ids.now }
    {
        if detach {
            self.change_each(AttachmentChange::Detach { nsid, ids });
        } else {
            self.change_each(AttachmentChange::Attach { nsid, ids });
        }
    }
}
