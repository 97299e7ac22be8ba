//! The connections between the sets.

ghost use Rattle.std.specs.Prelude.{◌≡◌, ◌≢◌, ◌↔◌, ℕ, IsTrue, option_map};
ghost use Rattle.std.specs.Option.{option_copied};
ghost use Rattle.vs_link.specs.Connection.{sent};
ghost use Rattle.vs_link.specs.Links.{IsPair, connection_of};
ghost use Rattle.vs_machine.specs.State as machine;
ghost use Rattle.vs_machine.specs.Kinds.Connections.{first_call, first_reply};
ghost use Rattle.vs_state.specs.Plain.{plain};
ghost use Rattle.vs_state.specs.Sized.{IsSized};

use crate::state::State;
use vs_base::SetNo;
use vs_link::{Heard, Links, Posted};

impl State {
    /// The connections, one from each set of the cluster to each other one.
    pub fn links(&self) -> &Links
        requires { IsSized self.now }
        ensures sets { result.now.sets ≡ machine.sets_of (plain self.now) }
        ensures lines { (x y : ℕ) → x ≢ y → connection_of result.now x y ≡ (plain self.now).link x y }
    {
        &self.links
    }

    /// Whether the cluster has a connection between two sets: between each two that differ.
    pub fn has_link(&self, from: SetNo, to: SetNo) -> bool
        requires { IsSized self.now }
        ensures { IsTrue result ↔ IsPair self.now.links from to }
    {
        from != to && self.has_set(from) && self.has_set(to)
    }

    /// How often the connection between two sets was closed.
    pub fn epoch(&self, from: SetNo, to: SetNo) -> u64
        requires { IsSized self.now }
        ensures { result ≡ ((plain self.now).link from to).epoch }
    {
        if self.has_link(from, to) {
            self.links().epoch(from, to)
        } else {
            0
        }
    }

    /// The message that stands first on the way between two sets.
    pub fn head_call(&self, from: SetNo, to: SetNo) -> Option<&Posted>
        requires { IsSized self.now }
        ensures { option_map sent (option_copied result) ≡ first_call (plain self.now) from to }
    {
        if self.has_link(from, to) {
            self.links().head_call(from, to)
        } else {
            None
        }
    }

    /// The reply that stands first on the way back.
    pub fn head_reply(&self, from: SetNo, to: SetNo) -> Option<&Heard>
        requires { IsSized self.now }
        ensures { option_copied result ≡ first_reply (plain self.now) from to }
    {
        if self.has_link(from, to) {
            self.links().head_reply(from, to)
        } else {
            None
        }
    }
}
