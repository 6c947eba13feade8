//! Lists of NSIDs.

ghost use Rattle.std.specs.Prelude.{◌≡◌, ◌≤◌, ◌<◌, ◌∷◌, [], List, MatchOption, ℕ, length};
ghost use Rattle.std.specs.FinMap as map_of;
ghost use Rattle.nv_bits.specs.Above.{above};
ghost use Rattle.nv_model.specs.Conditions.{active_nsids, concerned};
ghost use Rattle.nv_model.specs.State.{ascending};
ghost use Rattle.nv_layout.specs.Limits.{most_nsids};

use crate::subsystem::Subsystem;
use nv_bits::{BitSet, VecMap};
use nv_command::BROADCAST_NSID;
use nv_layout::NsList;
use nv_model::Namespace;

/// Numbers that can be listed in ascending order.
pub(crate) trait Ascending {
    /// The numbers in ascending order.
    ghost listed: { Self → List ℕ };

    /// The greatest number of them.
    ghost most: { Self → ℕ };

    /// Returns how many numbers there are.
    fn len(&self) -> u32
        ensures count { result ≡ length (listed self.now) }
        ensures within { result ≤ most self.now };

    /// Returns the lowest number above another.
    fn next_above(&self, last: u32) -> Option<u32>
        ensures { MatchOption result (above last (listed self.now) ≡ [])
            (λ n. above last (listed self.now) ≡ n ∷ above n (listed self.now)) };
}

impl Ascending for BitSet {
    ghost listed = { λ s. ascending s.members };

    ghost most = { λ s. s.count };

    fn len(&self) -> u32 {
        BitSet::len(self)
    }

    fn next_above(&self, last: u32) -> Option<u32> {
        BitSet::next_above(self, last)
    }
}

impl Ascending for VecMap<Namespace> {
    ghost listed = { λ s. map_of.keys s.values };

    ghost most = { λ s. s.count };

    fn len(&self) -> u32 {
        VecMap::len(self)
    }

    fn next_above(&self, last: u32) -> Option<u32> {
        VecMap::next_above(self, last)
    }
}

/// Writes the numbers above `after` to `list`.
pub(crate) fn list_above<A: Ascending>(numbers: &A, after: u32, list: &mut NsList)
    requires { A.most numbers.now ≤ most_nsids }
    ensures { list.new ≡ above after (A.listed numbers.now) }
{
    list.clear();
    let mut last = after;
    for _ in 0..numbers.len() {
        let Some(nsid) = numbers.next_above(last) else {
            break;
        };
        list.push(nsid);
        last = nsid;
    }
}

impl Subsystem {
    /// Writes the NSIDs above `after` that are active on a controller to `list`.
    pub(crate) fn list_active(&self, ctrl: u16, after: u32, list: &mut NsList)
        requires { ctrl < length self.now.controllers }
        ensures { list.new ≡ above after (active_nsids self.now ctrl) }
    {
        list_above(&self.controllers[ctrl as usize].attached, after, list);
    }

    /// Writes the NSIDs that a command concerns to `list`. For the broadcast NSID these are all that
    /// are active on the controller.
    pub(crate) fn concerned(&self, ctrl: u16, nsid: u32, list: &mut NsList)
        requires { ctrl < length self.now.controllers }
        ensures { list.new ≡ concerned self.now ctrl nsid }
    {
        if nsid == BROADCAST_NSID {
            self.list_active(ctrl, 0, list);
        } else {
            list.clear();
            list.push(nsid);
        }
    }
}
