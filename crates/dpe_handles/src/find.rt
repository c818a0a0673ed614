//! The searches: for a handle, and for the default of a locality.
ghost use Rattle.std.specs.Prelude.{◌≡◌, ℕ, ◌+◌, ◌^◌, ◌<◌, ◌≤◌, length, Some, None, IfSome, IfNone, slice_get, slice_index};
ghost use Rattle.std.specs.Int.{w64, from_be_bytes};
ghost use Rattle.dpe_handles.specs.Rows.{serial, HasHandle, HasNoHandle, HasSerial, IsOnlyAt, IsDefaultAt, HasNoDefault, HalvingLooks, HalvingSteps};

use crate::row::Row;
use crate::table::{Steps, Table};

// The serial in a handle.
#[tactic(auto, unfolding(crate::specs::Rows::serial))]
pub(crate) fn serial_of(handle: &[u8; 16]) -> u64
    ensures { result ≡ serial handle.now }
{
    let h = handle;
    u64::from_be_bytes([h[0], h[1], h[2], h[3], h[4], h[5], h[6], h[7]])
}

impl Table {
    // Looks at the serial of the row at this place, and counts that.
    fn look(&self, at: usize, steps: &mut Steps) -> u64
        requires place { at < length self.now }
        requires few { steps.old.taken < 4294967295 }
        ensures serial { HasSerial self.now at result }
        ensures counted { steps.new.taken ≡ steps.old.taken + 1 }
    {
        steps.count();
        self.serial(at)
    }

    // The place of the one row that can have this serial. At each look at least half of the other places fall away.
    fn only_place(&self, serial: u64, steps: &mut Steps) -> usize
        requires some { 0 < length self.now }
        requires few { steps.old.taken ≤ 2 ^ 31 }
        ensures place { result < length self.now }
        ensures only { IsOnlyAt self.now serial result }
        ensures looks { HalvingLooks (length self.now) steps.old.taken steps.new.taken }
    {
        let mut at = 0;
        let mut left = self.len();
        while left > 1 {
            let half = left / 2;
            if self.look(at + half, steps) <= serial {
                at += half;
            }
            left -= half;
        }
        at
    }

    /// The place of the row with these bytes, or `None` exactly where no row has them. Each row that is looked at is
    /// counted: that is as many as the length has binary digits, or one more.
    pub fn find(&self, handle: &[u8; 16], steps: &mut Steps) -> Option<usize>
        requires { steps.old.taken ≤ 2 ^ 31 }
        ensures found { IfSome result (HasHandle self.now handle.now) }
        ensures absent { IfNone result (HasNoHandle self.now handle.now) }
        ensures steps { HalvingSteps (length self.now) steps.old.taken steps.new.taken }
    {
        if self.len() == 0 {
            return None;
        }
        let at = self.only_place(serial_of(handle), steps);
        steps.count();
        if self.row(at).handle == *handle {
            Some(at)
        } else {
            None
        }
    }

    /// The place of the marked row of this locality, or `None` exactly where there is none. It looks at as many rows as
    /// `find`, and counts none.
    pub fn default_at(&self, locality: u8) -> Option<usize>
        ensures found { IfSome result (IsDefaultAt self.now locality) }
        ensures absent { IfNone result (HasNoDefault self.now locality) }
    {
        if self.len() == 0 {
            return None;
        }
        let at = self.only_place(self.default_serial(locality), &mut Steps::new());
        let row = self.row(at);
        if row.default && row.locality == locality {
            Some(at)
        } else {
            None
        }
    }
}
