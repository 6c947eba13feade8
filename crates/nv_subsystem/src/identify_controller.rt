//! The Identify data of a controller. Section "Identify Controller data structure (CNS 01h)".

ghost use Rattle.std.specs.Prelude.{◌≡◌, ◌<◌, length};
ghost use Rattle.nv_subsystem.specs.inner.ControllerView.{controller_view};
ghost use Rattle.nv_model.specs.IdentifyController.{cmic_of, fna_of, controller_reply, id_ctrl_of};
ghost use Rattle.nv_model.specs.IdentifyController.{padded};

use crate::controller::Controller;
use crate::record_room::RecordRoom;
use crate::subsystem::Subsystem;
use nv_command::{Borrowed, Reply};
use nv_layout::IdCtrl;

/// Returns a text with padding after it.
fn padded<const N: usize>(text: &[u8], padding: u8) -> [u8; N]
    ensures { result ≡ padded N padding text.now }
{
    let mut bytes = [padding; N];
    let count = text.len().min(N);
    bytes[..count].copy_from_slice(&text[..count]);
    bytes
}

impl Controller {
    /// Returns FNA, which says what a format can do: erase by destroying a key (bit 2).
    fn fna(&self) -> u8
        ensures { result ≡ fna_of (controller_view self.now) }
    {
        if self.identity.crypto_erase { 0x04 } else { 0 }
    }
}

impl Subsystem {
    /// Returns CMIC, which says how namespaces are shared: bit 1 if there are two controllers or
    /// more.
    fn cmic(&self) -> u8
        ensures { result ≡ cmic_of self.now }
    {
        if self.controllers.len() >= 2 { 0x02 } else { 0 }
    }

    /// Returns the data of a controller: version 1.4, with Format NVM and Namespace Management
    /// (OACS), one firmware slot (FRMW), offsets into logs (LPA), entries of 64 and of 16 bytes
    /// (SQES, CQES), and feature values that can be saved (ONCS).
    fn id_ctrl(&self, controller: &Controller) -> IdCtrl
        ensures { result ≡ id_ctrl_of self.now (controller_view controller.now) }
    {
        let identity = &controller.identity;
        let numbers = identity.numbers;
        IdCtrl {
            vid: numbers.vid,
            ssvid: numbers.ssvid,
            sn: padded(identity.sn.as_bytes(), b' '),
            mn: padded(identity.mn.as_bytes(), b' '),
            fr: padded(identity.fr.as_bytes(), b' '),
            rab: numbers.rab,
            ieee: numbers.ieee,
            cmic: self.cmic(),
            mdts: numbers.mdts,
            cntlid: identity.cntlid,
            ver: 0x0001_0400,
            oacs: 0x0a,
            frmw: 0x02,
            lpa: 0x04,
            elpe: numbers.elpe,
            npss: 0,
            wctemp: numbers.wctemp,
            cctemp: numbers.cctemp,
            tnvmcap: u128::from(self.tnvmcap),
            unvmcap: u128::from(self.unallocated),
            sqes: 0x66,
            cqes: 0x44,
            nn: self.slots.count(),
            oncs: 0x10,
            fna: controller.fna(),
            vwc: numbers.vwc,
            subnqn: padded(self.subnqn.as_bytes(), 0),
        }
    }

    /// Returns the reply with the data of a controller. It isn't inlined, so that only this reply
    /// needs room for it.
    #[inline(never)]
    pub(crate) fn controller_reply<'a>(&self, ctrl: u16, room: &'a mut RecordRoom) -> Reply<'a>
        requires { ctrl < length self.now.controllers }
        ensures { result ≡ controller_reply self.now ctrl }
    {
        let controller = &self.controllers[ctrl as usize];
        let data = room.controller.insert(self.id_ctrl(controller));
        Reply::Controller(Borrowed::new(data))
    }
}
