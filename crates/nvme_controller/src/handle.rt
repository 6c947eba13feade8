//! The handle by which a program in C holds a machine.
ghost use Rattle.std.specs.Prelude.{◌≡◌, None, Option, Some};
ghost use Rattle.std.specs.Coded.{coded_option};
ghost use Rattle.nv_controller.specs.Machine.{MachineValue};
ghost use Rattle.nv_controller.specs.contracts.machine.Machine.{the_row};
ghost use Rattle.nvme_controller.specs.Held.{holds};
ghost use Rattle.nvme_controller.specs.Open.{IsOpen};

use crate::parts::Parts;
use nv_controller::Machine;
use std::alloc::Global;
use std::marker::Model;
use std::{mem, ptr};

/// A place for a machine: a pointer to it, or null.
#[repr(C)]
#[derive(Drop)]
pub struct Handle {
    at: *mut u8,
    alloc: Global,
    pub ghost machine: { Option MachineValue } by { coded_option the_row.coded },
}

impl Model for Handle {
    ghost also_owns = { λ h. holds h.alloc h.at h.machine };
}

impl Handle {
    /// Creates a handle without a machine.
    fn none(alloc: Global) -> Handle
        ensures { result.machine ≡ None }
    {
        Handle {
            at: ptr::null_mut(),
            alloc,
        }
    }

    fn of_parts(parts: Parts<Machine, Global>) -> Handle
        ensures { result.machine ≡ Some parts.value }
    {
        let Parts { ptr, alloc } = parts;
        let at = ptr as *mut u8;
        Handle { at, alloc }
    }

    fn into_parts(self) -> Parts<Machine, Global>
        requires { IsOpen self.machine }
        ensures { self.machine ≡ Some result.value }
    {
        let Handle { at, alloc } = self;
        let ptr = at as *mut Machine;
        Parts { ptr, alloc }
    }

    /// Takes the machine out of the handle.
    pub(crate) fn take(&mut self, alloc: Global) -> Box<Machine>
        requires { IsOpen self.old.machine }
        ensures value { self.old.machine ≡ Some result.value }
        ensures none { self.new.machine ≡ None }
    {
        let held = mem::replace(self, Handle::none(alloc));
        held.into_parts().into_box()
    }

    /// Puts a machine into the handle. A machine that it had would never be dropped.
    pub(crate) fn put(&mut self, machine: Box<Machine>)
        requires { self.old.machine ≡ None }
        ensures { self.new.machine ≡ Some machine.value }
    {
        *self = Handle::of_parts(Parts::of(machine));
    }
}
