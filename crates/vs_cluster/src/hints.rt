//! Which clients went by a hint.

ghost use Rattle.std.specs.Prelude.{◌≡◌, ◌-◌, false, length, slice_set};
ghost use Rattle.vs_machine.specs.Driven.{flags_of};
ghost use Rattle.vs_machine.specs.Tables.{put};

use vs_base::ClientNo;
use vs_machine::steered_posts;

/// Of each client whether its last post wasn't the first of its call, and went for the hint alone.
#[derive(Drop)]
pub(crate) struct Hints {
    flags: [bool; 64],
}

impl Hints {
    /// No client posted yet.
    pub(crate) fn none() -> Hints
        ensures flags { flags_of result.flags ≡ (λ c. false) }
        ensures count { length result.flags ≡ 64 }
    {
        steered_posts();
        Hints { flags: [false; 64] }
    }

    pub(crate) fn of(&self, client: ClientNo) -> bool
        ensures { result ≡ flags_of self.now.flags client }
    {
        self.flags[usize::from(client.get()) - 1]
    }

    pub(crate) fn put(&mut self, client: ClientNo, by_hint: bool)
        ensures flags { flags_of self.new.flags ≡ put (flags_of self.old.flags) client by_hint }
        ensures count { length self.new.flags ≡ 64 }
    {
        steered_posts();
        self.flags[usize::from(client.get()) - 1] = by_hint;
    }
}
