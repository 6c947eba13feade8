//! Format NVM: when a format is refused, and what it changes. Section "Format NVM command".

ghost use Rattle.std.specs.Prelude.{◌≡◌, ◌<◌, length};
ghost use Rattle.std.specs.List.{list_any};
ghost use Rattle.nv_model.specs.Change.{changed_at_keys};
ghost use Rattle.nv_model.specs.Format.{can_erase_by_key, format_rows, formatted, has_one_below};
ghost use Rattle.nv_model.specs.Format.{in_format, is_below};
ghost use Rattle.nv_model.specs.Conditions.{concerned};
ghost use Rattle.nv_model.specs.inner.Conditions.{Checks};
ghost use Rattle.nv_model.specs.inner.Format.{with_format};

use crate::subsystem::Subsystem;
use nv_command::{BROADCAST_NSID, NewFormat, Refusal, StatusCode};
use nv_layout::{FourBits, NsList};
use nv_model::Namespace;

impl Subsystem {
    /// Returns whether a namespace has a capacity less than `size`.
    fn is_below(&self, size: u64, nsid: u32) -> bool
        ensures { result ≡ is_below self.now size nsid }
    {
        match self.slots.get(nsid) {
            Some(namespace) => namespace.capacity < size,
            None => false,
        }
    }

    /// Returns whether any of some namespaces has a capacity less than `size`.
    fn one_is_below(&self, size: u64, nsids: &[u32]) -> bool
        ensures { result ≡ list_any (is_below self.now size) nsids.now }
    {
        nsids.iter().any(|nsid| self.is_below(size, *nsid))
    }

    /// Returns whether any of some namespaces has no room for a logical block of the format.
    fn has_one_below(&self, lbaf: FourBits, nsids: &[u32]) -> bool
        ensures { result ≡ has_one_below self.now lbaf nsids.now }
    {
        match self.format_at(lbaf.get()) {
            Some(format) => self.one_is_below(1 << format.lbads, nsids),
            None => false,
        }
    }

    /// Returns whether any of the namespaces that are concerned has no room for a logical block.
    fn leaves_one_below(&self, ctrl: u16, nsid: u32, lbaf: FourBits, list: &mut NsList) -> bool
        requires { ctrl < length self.now.controllers }
        ensures { result ≡ has_one_below self.now lbaf (concerned self.now ctrl nsid) }
    {
        self.concerned(ctrl, nsid, list);
        self.has_one_below(lbaf, list.as_slice())
    }

    /// Returns whether a controller can erase by destroying a key (FNA bit 2).
    fn can_erase_by_key(&self, ctrl: u16) -> bool
        requires { ctrl < length self.now.controllers }
        ensures { result ≡ can_erase_by_key self.now ctrl }
    {
        self.controllers[ctrl as usize].identity.crypto_erase
    }

    /// Why a format is refused. The conditions go in the order of the rows. `list` is used on the
    /// way.
    pub(crate) fn check_format(
        &self,
        ctrl: u16,
        asked: &NewFormat,
        list: &mut NsList,
    ) -> Result<(), Refusal>
        requires { ctrl < length self.now.controllers }
        ensures { Checks (format_rows self.now ctrl asked.now) result }
    {
        let nsid = asked.nsid;
        let all = nsid == BROADCAST_NSID;
        let ses = asked.ses.get();
        if !(self.is_valid(nsid) || all) {
            Err(Refusal::from(StatusCode::InvalidNamespaceOrFormat))
        } else if !(self.is_active(ctrl, nsid) || all) {
            Err(Refusal::from(StatusCode::InvalidFieldInCommand))
        } else if !self.can_have(asked.lbaf.get(), asked.mset) {
            Err(Refusal::from(StatusCode::InvalidFormat))
        } else if asked.pi.get() != 0 || asked.pil {
            Err(Refusal::from(StatusCode::InvalidFormat))
        } else if self.leaves_one_below(ctrl, nsid, asked.lbaf, list) {
            Err(Refusal::from(StatusCode::InvalidFormat))
        } else if ses > 2 || (ses == 2 && !self.can_erase_by_key(ctrl)) {
            Err(Refusal::from(StatusCode::InvalidFieldInCommand))
        } else {
            Ok(())
        }
    }

    /// Changes the format of a namespace, if there is one. Its capacity stays the same.
    pub(crate) fn change_format(&mut self, nsid: u32, lbaf: FourBits, extended: bool)
        ensures { self.new ≡ record self.old {
          namespaces = with_format lbaf extended self.old.namespaces nsid;
        } }
    {
        if let Some(namespace) = self.slots.get(nsid) {
            let changed = Namespace {
                format: lbaf.get(),
                extended,
                ..namespace
            };
            self.slots.insert(nsid, changed);
        }
    }

    /// Formats some namespaces.
    fn format_each(&mut self, nsids: &[u32], lbaf: FourBits, mset: bool)
        ensures { self.new ≡ record self.old {
          namespaces = changed_at_keys nsids.now (in_format lbaf mset) self.old.namespaces;
        } }
    {
        for nsid in nsids {
            self.change_format(*nsid, lbaf, mset);
        }
    }

    /// Formats a namespace, and all that are active on the controller for the broadcast NSID. `list`
    /// is used on the way.
    pub(crate) fn format(&mut self, ctrl: u16, asked: &NewFormat, list: &mut NsList)
        requires { ctrl < length self.old.controllers }
        ensures { self.new ≡ formatted self.old ctrl asked.now }
    {
        let NewFormat {
            nsid,
            lbaf,
            mset,
            ..
        } = *asked;
        self.concerned(ctrl, nsid, list);
        self.format_each(list.as_slice(), lbaf, mset);
    }
}
