//! The Identify commands: when they are refused, and what they return. Section "Identify command".

ghost use Rattle.std.specs.Prelude.{◌≡◌, ◌≤◌, ◌<◌, ◌∷◌, [], length, All};
ghost use Rattle.nv_command.specs.declared.reply.Reply.TheVariants as reply;
ghost use Rattle.nv_model.specs.WellFormed.{blocks};
ghost use Rattle.nv_model.specs.Identify.{active_namespace, active_reply, active_rows};
ghost use Rattle.nv_model.specs.Identify.{allocated_namespace};
ghost use Rattle.nv_model.specs.Identify.{allocated_reply, allocated_rows, blank, common_of};
ghost use Rattle.nv_model.specs.Identify.{flbas_of, id_ns_of};
ghost use Rattle.nv_model.specs.Identify.{lbaf_of, lbafs_of, list_rows};
ghost use Rattle.nv_model.specs.Conditions.{is_active, row};
ghost use Rattle.nv_command.specs.declared.status_code.StatusCode.TheVariants.{InvalidNamespaceOrFormat};
ghost use Rattle.nv_model.specs.inner.Conditions.{Checks};

use crate::record_room::RecordRoom;
use crate::subsystem::Subsystem;
use nv_command::{BROADCAST_NSID, Borrowed, Refusal, Reply, StatusCode};
use nv_layout::{IdNs, Lbaf};
use nv_model::{Format, Namespace};

/// The least NSID after which no list can be requested.
pub const LIST_LIMIT: u32 = 0xffff_fffe;

/// Refuses a list after an NSID by the first condition that holds.
pub(crate) fn check_list(after: u32) -> Result<(), Refusal>
    ensures { Checks (list_rows after) result }
{
    refuse_if(after >= LIST_LIMIT)
}

/// Refuses with Invalid Namespace or Format if a condition holds. This is one row.
fn refuse_if(when: bool) -> Result<(), Refusal>
    ensures { Checks (row when InvalidNamespaceOrFormat ∷ []) result }
{
    if when {
        Err(Refusal::from(StatusCode::InvalidNamespaceOrFormat))
    } else {
        Ok(())
    }
}

impl Subsystem {
    /// Refuses an Identify of an active namespace by the first condition that holds.
    pub(crate) fn check_active(&self, nsid: u32) -> Result<(), Refusal>
        ensures { Checks (active_rows self.now nsid) result }
    {
        refuse_if(!(self.is_valid(nsid) || nsid == BROADCAST_NSID))
    }

    /// Refuses an Identify of an allocated namespace by the first condition that holds.
    pub(crate) fn check_allocated(&self, nsid: u32) -> Result<(), Refusal>
        ensures { Checks (allocated_rows self.now nsid) result }
    {
        refuse_if(!self.is_valid(nsid))
    }

    /// Returns the data of an allocated namespace, or zeros if there is none.
    fn allocated(&self, nsid: u32) -> IdNs
        ensures { result ≡ allocated_namespace self.now nsid }
    {
        match self.slots.get(nsid) {
            Some(namespace) => describe(&self.formats, self.mc, &namespace),
            None => blank_namespace(),
        }
    }

    /// Returns whether a namespace is attached to a controller.
    pub(crate) fn is_active(&self, ctrl: u16, nsid: u32) -> bool
        requires { ctrl < length self.now.controllers }
        ensures { result ≡ is_active self.now ctrl nsid }
    {
        self.controllers[ctrl as usize].attached.contains(nsid)
    }

    /// Returns the data of a namespace that is attached to a controller, or zeros if it isn't.
    fn active(&self, ctrl: u16, nsid: u32) -> IdNs
        requires { ctrl < length self.now.controllers }
        ensures { result ≡ active_namespace self.now ctrl nsid }
    {
        if self.is_active(ctrl, nsid) {
            self.allocated(nsid)
        } else {
            blank_namespace()
        }
    }

    /// Returns the data for an active namespace, or for the broadcast NSID what all have in common.
    fn active_data(&self, ctrl: u16, nsid: u32) -> IdNs
        requires { ctrl < length self.now.controllers }
        ensures { active_reply self.now ctrl nsid ≡ reply.Namespace result }
    {
        if nsid == BROADCAST_NSID {
            common(&self.formats, self.mc)
        } else {
            self.active(ctrl, nsid)
        }
    }

    /// Returns the reply with the data for an active namespace. It isn't inlined, so that only this
    /// reply needs room for it.
    #[inline(never)]
    pub(crate) fn active_reply<'a>(
        &self,
        ctrl: u16,
        nsid: u32,
        room: &'a mut RecordRoom,
    ) -> Reply<'a>
        requires { ctrl < length self.now.controllers }
        ensures { result ≡ active_reply self.now ctrl nsid }
    {
        let data = room.namespace.insert(self.active_data(ctrl, nsid));
        Reply::Namespace(Borrowed::new(data))
    }

    /// Returns the reply with the data of an allocated namespace.
    #[inline(never)]
    pub(crate) fn allocated_reply<'a>(&self, nsid: u32, room: &'a mut RecordRoom) -> Reply<'a>
        ensures { result ≡ allocated_reply self.now nsid }
    {
        let data = room.namespace.insert(self.allocated(nsid));
        Reply::Namespace(Borrowed::new(data))
    }
}

/// Returns a format as Identify lists it.
fn lbaf(format: &Format) -> Lbaf
    ensures { result ≡ lbaf_of format.now }
{
    Lbaf {
        ms: format.ms,
        lbads: format.lbads,
        rp: format.rp,
    }
}

const NO_LBAF: Lbaf = Lbaf {
    ms: 0,
    lbads: 0,
    rp: 0,
};

/// Returns the formats, followed by zeros up to sixteen.
fn lbafs(formats: &[Format]) -> [Lbaf; 16]
    requires { length formats.now ≤ 16 }
    ensures { result ≡ lbafs_of formats.now }
{
    let mut lbafs = [NO_LBAF; 16];
    for (i, format) in formats.iter().enumerate() {
        lbafs[i] = lbaf(format);
    }
    lbafs
}

/// Returns the data of a namespace that doesn't exist.
fn blank_namespace() -> IdNs
    ensures { result ≡ blank }
{
    IdNs {
        nsze: 0,
        ncap: 0,
        nuse: 0,
        nsfeat: 0,
        nlbaf: 0,
        flbas: 0,
        mc: 0,
        dpc: 0,
        dps: 0,
        nmic: 0,
        nvmcap: 0,
        lbafs: [NO_LBAF; 16],
    }
}

/// Returns the data that all namespaces have in common.
fn common(formats: &[Format], mc: u8) -> IdNs
    requires formats { (1 ≤ length formats.now) × (length formats.now ≤ 16) }
    ensures { result ≡ common_of formats.now mc }
{
    IdNs {
        nlbaf: (formats.len() - 1) as u8,
        mc,
        lbafs: lbafs(formats),
        ..blank_namespace()
    }
}

/// Returns the size of a namespace in logical blocks of its format, rounded down.
fn block_count(formats: &[Format], namespace: &Namespace) -> u64
    requires { All (λ f. f.lbads ≤ 16) formats.now }
    ensures { result ≡ blocks formats.now namespace.now }
{
    match formats.get(namespace.format as usize) {
        Some(format) => namespace.capacity >> format.lbads,
        None => 0,
    }
}

/// Returns the data of a namespace.
fn describe(formats: &[Format], mc: u8, namespace: &Namespace) -> IdNs
    requires formats { (1 ≤ length formats.now) × (length formats.now ≤ 16) }
    requires block_sizes { All (λ f. f.lbads ≤ 16) formats.now }
    requires format { namespace.now.format < 16 }
    ensures { result ≡ id_ns_of formats.now mc namespace.now }
{
    let blocks = block_count(formats, namespace);
    IdNs {
        nsze: blocks,
        ncap: blocks,
        flbas: namespace.format + if namespace.extended { 16 } else { 0 },
        nmic: if namespace.shared { 1 } else { 0 },
        nvmcap: namespace.capacity as u128,
        ..common(formats, mc)
    }
}
