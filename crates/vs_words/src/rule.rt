//! What a pass knows of the words, the rule that holds between any two steps, and what each of the six kinds of step does.
ghost use Rattle.std.specs.Prelude.{◌≡◌, ◌≢◌, ◌<◌, ◌≤◌, ◌-◌, ◌^◌, Contains};
ghost use Rattle.vs_words.specs.Rule.{IsSound, unused, holding, undoing, free, closing, knowing, looking, lending};

use atomic_table::{Play, Split, TableRule};
use std::collections::LinkedList;

/// The reference that a pass has a part in.
pub enum Grip {
    /// It has none.
    Nothing,
    /// It holds the reference of this word.
    Holds(u32),
    /// It found this word closed, and has yet to take back what it added.
    MustUndo(u32),
}

/// What a pass knows. No value of it is made.
pub struct View {
    /// How many passes may still be split from it.
    pub spare: u64,
    pub grip: Grip,
    /// The words that it has seen closed.
    pub seen: LinkedList<u32>,
    /// The words that it has seen closed and without a reference.
    pub known: LinkedList<u32>,
    /// What its last take or look found in the word.
    pub found: u64,
}

/// The rule of the words. Its key is their number.
pub struct Rule;

impl<S> TableRule<S, View, u32> for Rule {
    ghost holds = { λ count s. IsSound count s };

    ghost first = { λ count. unused 63 };
}

/// The seat's pass is cut in two.
pub struct Splits;

impl Split<View> for Splits {
    ghost left = { λ v. lending v };

    ghost right = { λ v. unused 0 };
}

/// A `fetch_add` that takes a reference.
pub struct Takes;

impl<S> Play<S, View> for Takes {
    ghost then = { λ s me found after.
        (found < 2 ^ 63 → after ≡ (holding s.word found me.0, me.1))
        × (2 ^ 63 ≤ found → after ≡ (undoing s.word found me.0, me.1))
        × (Contains me.0.seen s.word → 2 ^ 63 ≤ found)
        × (Contains me.0.known s.word → 2 ^ 63 ≤ found) };
}

/// A `fetch_sub` that takes back what a take added to a closed word.
pub struct Undoes;

impl<S> Play<S, View> for Undoes {
    ghost then = { λ s me found after. after ≡ (free me.0, me.1) };
}

/// A `fetch_sub` that gives a reference back.
pub struct Gives;

impl<S> Play<S, View> for Gives {
    ghost then = { λ s me found after. after ≡ (free me.0, me.1) };
}

/// A `fetch_or` that closes the word.
pub struct Closes;

impl<S> Play<S, View> for Closes {
    ghost then = { λ s me found after. after ≡ (closing s.word me.0, me.1) };
}

/// A load.
pub struct Looks;

impl<S> Play<S, View> for Looks {
    ghost then = { λ s me found after.
        (found ≡ 2 ^ 63 → after ≡ (knowing s.word found me.0, me.1))
        × (found ≢ 2 ^ 63 → after ≡ (looking found me.0, me.1)) };
}
