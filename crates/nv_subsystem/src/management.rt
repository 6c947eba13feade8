//! Namespace Management: when a create or a delete is refused, what it returns, and what it
//! changes. Section "Namespace Management command".

ghost use Rattle.std.specs.Prelude.{◌≡◌, ◌≤◌, None, Some, IfOk, IfSome};
ghost use Rattle.std.specs.FinMap as map_of;
ghost use Rattle.nv_model.specs.Management.{bytes_needed, create_rows, created, created_nsid};
ghost use Rattle.nv_model.specs.Management.{delete_rows, deleted};
ghost use Rattle.nv_model.specs.Management.{without_all, without_one};
ghost use Rattle.nv_model.specs.Conditions.{can_have, first_refusal, format_at, free_nsid};
ghost use Rattle.nv_model.specs.inner.Conditions.{Checks};

use crate::attachment::AttachmentChange;
use crate::subsystem::Subsystem;
use nv_command::{BROADCAST_NSID, NewNamespace, Refusal, StatusCode};
use nv_model::{Format, Namespace};

impl Subsystem {
    /// Returns the format at an index.
    pub(crate) fn format_at(&self, index: u8) -> Option<Format>
        ensures value { result ≡ format_at self.now index }
        ensures small { IfSome result (λ f. f.lbads ≤ 16) }
    {
        self.formats.get(index as usize).copied()
    }

    /// Returns whether the table has the format and, if metadata is to be at the end of its logical
    /// blocks, allows that.
    pub(crate) fn can_have(&self, index: u8, extended: bool) -> bool
        ensures { result ≡ can_have self.now index extended }
    {
        match self.format_at(index) {
            Some(format) => !extended || (format.ms > 0 && self.mc & 1 == 1),
            None => false,
        }
    }

    /// Returns how many bytes the requested logical blocks have, without their metadata.
    fn bytes_needed(&self, wanted: &NewNamespace) -> u128
        ensures { result ≡ bytes_needed self.now wanted.now }
    {
        let NewNamespace { nsze, flbas, .. } = *wanted;
        match self.format_at(flbas & 0x0f) {
            Some(format) => u128::from(nsze) << format.lbads,
            None => 0,
        }
    }

    /// Returns the least free NSID from 1 to NN.
    pub(crate) fn free_nsid(&self) -> Option<u32>
        ensures { result ≡ free_nsid self.now }
    {
        self.slots.lowest_free()
    }

    /// Refuses a create by the first condition that holds, and otherwise returns the NSID of the
    /// namespace. The conditions are in the order of the rows. If capacity is missing, the refusal
    /// reports how many bytes the create needs, or the greatest number of 64 bits.
    pub(crate) fn check_create(&self, wanted: &NewNamespace) -> Result<u32, Refusal>
        ensures checks { Checks (create_rows self.now wanted.now) result }
        ensures nsid { IfOk result (λ n. n ≡ created_nsid self.now) }
    {
        let NewNamespace {
            nsze,
            ncap,
            flbas,
            dps,
            nmic,
        } = *wanted;
        let bytes = self.bytes_needed(wanted);
        if !self.can_have(flbas & 0x0f, flbas & 0x10 != 0) {
            Err(Refusal::from(StatusCode::InvalidFormat))
        } else if dps != 0 {
            Err(Refusal::from(StatusCode::InvalidFieldInCommand))
        } else if nsze == 0 {
            Err(Refusal::from(StatusCode::InvalidFieldInCommand))
        } else if ncap < nsze {
            Err(Refusal::from(StatusCode::ThinProvisioningNotSupported))
        } else if ncap > nsze {
            Err(Refusal::from(StatusCode::InvalidFieldInCommand))
        } else if nmic > 1 {
            Err(Refusal::from(StatusCode::InvalidFieldInCommand))
        } else {
            match self.free_nsid() {
                None => Err(Refusal::from(StatusCode::NamespaceIdentifierUnavailable)),
                Some(_) if bytes > u128::from(self.unallocated) => Err(Refusal {
                    status: StatusCode::NamespaceInsufficientCapacity.status(),
                    specific: bytes.min(u128::from(u64::MAX)) as u64,
                }),
                Some(nsid) => Ok(nsid),
            }
        }
    }

    /// Creates a namespace with the least free NSID. It is attached to no controller.
    pub(crate) fn create(&mut self, wanted: &NewNamespace, nsid: u32)
        requires accepted { first_refusal (create_rows self.old wanted.now) ≡ None }
        requires free { free_nsid self.old ≡ Some nsid }
        ensures { self.new ≡ created self.old wanted.now }
    {
        let bytes = self.bytes_needed(wanted);
        let has_room = bytes <= u128::from(self.unallocated);
        prove!(has_room);
        let NewNamespace { flbas, nmic, .. } = *wanted;
        let namespace = Namespace {
            capacity: bytes as u64,
            format: flbas & 0x0f,
            extended: flbas & 0x10 != 0,
            shared: nmic & 1 == 1,
        };
        self.slots.insert(nsid, namespace);
        self.unallocated -= namespace.capacity;
    }

    /// Refuses a delete by the first condition that holds.
    pub(crate) fn check_delete(&self, nsid: u32) -> Result<(), Refusal>
        ensures { Checks (delete_rows self.now nsid) result }
    {
        let all = nsid == BROADCAST_NSID;
        if !(self.is_valid(nsid) || all) {
            Err(Refusal::from(StatusCode::InvalidNamespaceOrFormat))
        } else if !(self.slots.contains(nsid) || all) {
            Err(Refusal::from(StatusCode::InvalidFieldInCommand))
        } else {
            Ok(())
        }
    }

    /// Removes a namespace and frees its capacity.
    pub(crate) fn remove_namespace(&mut self, nsid: u32)
        ensures { self.new ≡ record self.old {
          namespaces = map_of.remove self.old.namespaces nsid;
        } }
    {
        if let Some(namespace) = self.slots.remove(nsid) {
            self.unallocated += namespace.capacity;
        }
    }

    /// Removes all namespaces and frees their capacities.
    pub(crate) fn clear_namespaces(&mut self)
        ensures { self.new ≡ record self.old { namespaces = map_of.empty } }
    {
        self.slots.clear();
        self.unallocated = self.tnvmcap;
    }

    /// Deletes a namespace and its attachments.
    fn delete_one(&mut self, nsid: u32)
        ensures { self.new ≡ without_one self.old nsid }
    {
        self.change_each(AttachmentChange::DetachEverywhere { nsid });
        self.remove_namespace(nsid);
    }

    /// Deletes all namespaces and their attachments.
    fn delete_all(&mut self)
        ensures { self.new ≡ without_all self.old }
    {
        self.change_each(AttachmentChange::DetachAll);
        self.clear_namespaces();
    }

    /// Deletes a namespace, or for the broadcast NSID all of them.
    pub(crate) fn delete(&mut self, nsid: u32)
        ensures { self.new ≡ deleted self.old nsid }
    {
        if nsid == BROADCAST_NSID {
            self.delete_all();
        } else {
            self.delete_one(nsid);
        }
    }
}
