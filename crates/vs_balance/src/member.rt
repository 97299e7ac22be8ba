//! A set while buckets are shared out.

ghost use Rattle.std.specs.Prelude.{◌≡◌, ◌≤◌, ◌-◌, ◌&&◌, nat_lt};

use crate::view::SetView;

/// A set, and whether it has left the sharing of buckets with its pinned ones.
#[derive(Clone, Copy)]
pub struct Member {
    pub view: SetView,
    pub left: bool,
}

impl Member {
    ghost use Rattle.vs_balance.specs.Member.{stays, weight_of, unlocked_count, kept_count, leave, ideal_in};

    /// Whether it takes part in the sharing.
    pub fn stays(&self) -> bool
        ensures { result ≡ stays self.now }
    {
        !self.view.locked && !self.left
    }

    /// Its weight in the sharing.
    pub fn weight(&self) -> u32
        ensures { result ≡ weight_of self.now }
    {
        if self.stays() { self.view.weight } else { 0 }
    }

    /// The buckets that it adds to those that are shared out.
    pub fn buckets(&self) -> u32
        requires { self.now.view.pinned ≤ self.now.view.count }
        ensures { result ≡ unlocked_count self.now.view - kept_count self.now }
    {
        if self.view.locked {
            0
        } else if self.left {
            self.view.count - self.view.pinned
        } else {
            self.view.count
        }
    }

    /// Leaves the sharing if its number there is below its pinned count, and says whether it does.
    pub fn leave_if_short(&mut self, number: u32) -> bool
        ensures after { self.new ≡ leave self.old number }
        ensures short { result ≡ (stays self.old && nat_lt number self.old.view.pinned) }
    {
        let short = self.stays() && number < self.view.pinned;
        if short {
            self.left = true;
        }
        short
    }

    /// Its ideal count, where this is its number in the last sharing.
    pub fn ideal(&self, number: u32) -> u32
        ensures { result ≡ ideal_in self.now number }
    {
        if self.view.locked {
            self.view.count
        } else if self.left {
            self.view.pinned
        } else {
            number
        }
    }
}
