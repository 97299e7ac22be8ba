//! The queue of the places of jobs, and the rule that holds of it.
ghost use Rattle.std.specs.Prelude.{◌≡◌, ◌≤◌, ◌<◌, ◌-◌, ◌+◌, [], ◌∷◌, ◌++◌, ℕ, All, length, IfOk, suc, max};
ghost use Rattle.crossbeam_queue.specs.Passes.{view, IsPassOf};
ghost use Rattle.vs_pool.specs.Rule.{hand, IsBalanced, weigh};

use crossbeam_queue::protocol::{Join, Lesson, Outcome, Protocol, Split};
use crossbeam_queue::{Pass, RuledArrayQueue};
use std::collections::LinkedList;

/// What a pass of the queue has put and taken, its parts of the right to know the whole, and a number that no place in
/// the queue reaches. No value of it is made.
pub struct Hand {
    pub parts: u64,
    pub limit: usize,
    pub put: LinkedList<usize>,
    pub taken: LinkedList<usize>,
}

/// The rule of the queue.
pub struct QueueRule;

impl Protocol<usize, Hand> for QueueRule {
    ghost holds = { IsBalanced };

    ghost first = { hand 64 0 [] [] };
}

/// A place is put by the pass that has every part.
pub struct Puts;

impl Outcome<usize, Hand> for Puts {
    ghost then = { λ v x w. w ≡ hand v.parts (max v.limit (suc x)) (v.put ++ x ∷ []) v.taken };
}

/// A place is taken by a worker.
pub struct Takes;

impl Outcome<usize, Hand> for Takes {
    ghost then = { λ v x w. (w ≡ hand v.parts v.limit v.put (v.taken ++ x ∷ [])) × (x < v.limit) };
}

impl Lesson<usize, Hand> for Takes {
    ghost fact = { λ v items. Unit {0} };
}

/// A place is taken, or the queue found empty, by the pass that has every part: what was put is then what was taken and
/// what the queue holds.
pub struct Ends;

impl Lesson<usize, Hand> for Ends {
    ghost fact = { λ v items. (h : ℕ → ℕ) → weigh h v.put ≡ weigh h v.taken + weigh h items };
}

impl Outcome<usize, Hand> for Ends {
    ghost then = { λ v x w. (w ≡ hand v.parts v.limit v.put (v.taken ++ x ∷ [])) × (x < v.limit) };
}

/// A pass is cut in two, and two are put together.
pub struct Parts;

impl Split<Hand> for Parts {
    ghost left = { λ v. hand (v.parts - 1) v.limit v.put v.taken };

    ghost right = { λ v. hand 1 v.limit [] [] };
}

impl Join<Hand> for Parts {
    ghost both = { λ v w. hand (v.parts + w.parts) v.limit (v.put ++ w.put) (v.taken ++ w.taken) };

    ghost spent = { hand 0 0 [] [] };
}

pub type PlaceQueue = RuledArrayQueue<usize, Hand, QueueRule>;

pub type Ticket = Pass<usize, Hand>;
