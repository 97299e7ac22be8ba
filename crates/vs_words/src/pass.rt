//! A pass: the right to hold one reference at a time.

ghost use Rattle.std.specs.Prelude.{◌≡◌};
ghost use Rattle.vs_words.specs.Standing.{IsNew};
ghost use Rattle.vs_words.specs.Rule.{IsUnused};

use crate::rule::View;
use atomic_table::Seat;
use std::marker::Model;

/// A right to hold one reference at a time. Contracts see which words it is of, which of them it holds, which it has
/// seen closed, which it knows to be closed and without a reference, and what its last take or look found.
///
/// A pass that is dropped while it holds a word keeps that reference for good.
#[derive(Drop)]
pub struct Pass {
    pub(crate) seat: Seat<u8, View>,
    pub(crate) held: Option<u32>,
}

impl Model for Pass {
    ghost use Rattle.std.specs.Prelude.{◌≡◌, ◌<◌, IfSome};
    ghost use Rattle.vs_words.specs.Standing.{Standing};
    ghost use Rattle.vs_words.specs.Rule.{grip_of};

    ghost Value = { Standing };

    ghost view = { λ p. record { of = p.seat.table_id; spare = p.seat.me.0.spare; held = p.held; seen = p.seat.me.0.seen; known = p.seat.me.0.known; found = p.seat.me.0.found } };

    ghost invariant = { λ p. (p.seat.me.0.grip ≡ grip_of p.held) × IfSome p.held (λ i. i < p.seat.table_id.words) };
}

impl Pass {
    // The pass of a seat that has not been used.
    pub(crate) fn of(seat: Seat<u8, View>) -> Pass
        requires { IsUnused seat.me.0 }
        ensures { IsNew seat.table_id result × (result.spare ≡ seat.me.0.spare) }
    {
        Pass { seat, held: None }
    }

    /// The word whose reference the pass holds.
    pub fn held(&self) -> Option<u32>
        ensures { result ≡ self.now.held }
    {
        self.held
    }
}
