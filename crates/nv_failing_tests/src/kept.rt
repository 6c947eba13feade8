//! The state of the first controller of a subsystem, as far as a script can change it.

use nv_controller::Machine;
use nv_layout::ThreeBits;
use nv_subsystem::{Command, FeatureQuery, RecordRoom, Subsystem, dword0};

/// How many refusals and commands the controller has counted, and the current value of its write
/// cache, if there is one.
#[derive(Clone, Copy, PartialEq, Eq)]
pub struct Kept {
    pub counts: (u64, u64),
    pub cache: Option<u32>,
}

/// Returns the current value of the first controller's write cache, if it has one.
fn cache_of(subsystem: &Subsystem) -> Option<u32> {
    let get = Command::GetFeature(FeatureQuery {
        fid: 6,
        sel: ThreeBits::low(0),
        nsid: 0,
        cdw11: 0,
    });
    if subsystem.controllers() == 0 {
        return None;
    }
    let mut room = RecordRoom::new();
    match subsystem.answer(0, &get, &mut room) {
        Ok(reply) => Some(dword0(&reply)),
        Err(_) => None,
    }
}

impl Kept {
    /// Returns the current state of a machine's first controller.
    pub(crate) fn of(machine: &Machine) -> Kept {
        let subsystem = machine.subsystem();
        let counts = if subsystem.controllers() == 0 {
            (0, 0)
        } else {
            let counts = subsystem.counts(0);
            (counts.refusals, counts.commands)
        };
        Kept {
            counts,
            cache: cache_of(subsystem),
        }
    }

    /// Returns whether this state can lie between two others, of which `before` is the earlier one.
    pub(crate) fn is_between(self, before: Kept, after: Kept) -> bool {
        let (refusals, commands) = self.counts;
        before.counts.0 <= refusals
            && refusals <= after.counts.0
            && before.counts.1 <= commands
            && commands <= after.counts.1
            && (self.cache == before.cache || self.cache == after.cache)
    }
}
