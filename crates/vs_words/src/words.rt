//! The words, and what a pass may do with one.

ghost use Rattle.std.specs.Prelude.{◌≡◌, ◌≢◌, ◌↔◌, ◌<◌, ◌≤◌, ◌+◌, ◌^◌, [], ◌∷◌, ◌++◌, All, Contains, length, suc, IfOk, IsTrue, IsSome, MatchBool, false, vec_len};
ghost use Rattle.vs_words.specs.Standing.{IsNew};
ghost use Rattle.vs_words.specs.Rule.{total, unused};
ghost use Rattle.vs_words.specs.End.{IsEndValue};

use crate::pass::Pass;
use crate::rule::{Closes, Gives, Looks, Rule, Splits, Takes, Undoes, View};
use atomic_table::{Seat, Table};
use std::alloc::Global;
use std::marker::Model;
use vs_base::NoMemory;

/// What a word has more once it is closed.
const CLOSED: u64 = 1 << 63;

/// Reference words, one for each bucket, that threads share with no lock. Contracts see which words they are, and how
/// many.
#[derive(Drop)]
pub struct RefWords {
    table: Table<u8, View, u32, Rule, Global>,
}

impl Model for RefWords {
    ghost use Rattle.std.specs.Prelude.{◌≡◌};
    ghost use Rattle.atomic_table.specs.Seated.{TableId, table_id_coded};

    ghost Value = { TableId };

    ghost coded = { table_id_coded };

    ghost view = { λ w. w.table.shared.table_id };

    ghost invariant = { λ w. (w.table.shared.key ≡ w.table.shared.table_id.words) × (w.table.shared.table_id.slots ≡ 0) };
}

impl RefWords {
    /// This many words, all 0, and this many passes that hold nothing.
    ///
    /// These are all passes of the words: 64 is the number of passes that there are, and may be split from others. As none
    /// of them has been used, each word is 0, by `unused_words_are_zero`.
    pub fn open(alloc: Global, words: u32, n: u8) -> Result<(RefWords, Vec<Pass>), NoMemory>
        requires words { (0 < words) × (words ≤ 30000) }
        requires passes { (0 < n) × (n ≤ 64) }
        ensures words { IfOk result (λ r. r.0.words ≡ words) }
        ensures passes { IfOk result (λ r. (vec_len r.1 ≡ n) × All (IsNew r.0) r.1.items) }
        ensures all { IfOk result (λ r. total (λ p. suc p.spare) r.1.items ≡ 64) }
    {
        let zeros = vec![in alloc; 0u64; words as usize]?;
        let (table, seat) = Table::of_words(alloc, zeros.as_slice(), &words)?;
        let words = RefWords { table };
        let passes = words.split(alloc, seat, n)?;
        Ok((words, passes))
    }

    // Cuts the first pass into n.
    #[tactic(auto, using(crate::proofs::Steps::total_snoc))]
    fn split(&self, alloc: Global, mut seat: Seat<u8, View>, n: u8) -> Result<Vec<Pass>, NoMemory>
        requires words { (seat.table_id ≡ self.now) × (0 < self.now.words) }
        requires first { seat.me.0 ≡ unused 63 }
        requires passes { (0 < n) × (n ≤ 64) }
        ensures passes { IfOk result (λ v. (vec_len v ≡ n) × All (IsNew self.now) v.items) }
        ensures all { IfOk result (λ v. total (λ p. suc p.spare) v.items ≡ 64) }
    {
        let mut passes = Vec::new(alloc);
        let others = n - 1;
        for _ in 0..others {
            let other = self.table.shared.split_seat::<Splits>(&mut seat);
            passes.push(Pass::of(other))?;
        }
        passes.push(Pass::of(seat))?;
        Ok(passes)
    }

    /// Takes the reference of word i, unless the word is closed.
    pub fn take(&self, pass: &mut Pass, i: u32) -> bool
        requires same { pass.old.of ≡ self.now }
        requires free { pass.old.held ≡ None }
        requires within { i < self.now.words }
        ensures answer { IsTrue result ↔ (pass.new.found < 2 ^ 63) }
        ensures taken { MatchBool result (pass.new ≡ record pass.old { held = Some i; found = pass.new.found }) (pass.new ≡ record pass.old { seen = pass.old.seen ++ i ∷ []; found = pass.new.found }) }
        ensures seen { Contains pass.old.seen i → result ≡ false }
        ensures known { Contains pass.old.known i → result ≡ false }
    {
        let found = self
            .table
            .shared
            .fetch_add::<Takes>(&mut pass.seat, i as usize, 1);
        if found < CLOSED {
            pass.held = Some(i);
            return true;
        }
        self.table
            .shared
            .fetch_sub::<Undoes>(&mut pass.seat, i as usize, 1);
        false
    }

    /// Gives back the reference that the pass holds.
    pub fn give(&self, pass: &mut Pass)
        requires same { pass.old.of ≡ self.now }
        requires holds { IsSome pass.old.held }
        ensures { pass.new ≡ record pass.old { held = None } }
    {
        let Some(i) = pass.held else { unreachable!() };
        self.table
            .shared
            .fetch_sub::<Gives>(&mut pass.seat, i as usize, 1);
        pass.held = None;
    }

    /// Closes word i: from then on no take of it succeeds.
    pub fn close(&self, pass: &mut Pass, i: u32)
        requires same { pass.old.of ≡ self.now }
        requires within { i < self.now.words }
        ensures { pass.new ≡ record pass.old { seen = pass.old.seen ++ i ∷ [] } }
    {
        self.table
            .shared
            .fetch_or::<Closes>(&mut pass.seat, i as usize, CLOSED);
    }

    /// Whether word i is closed and nobody has a part in its reference.
    pub fn empty(&self, pass: &mut Pass, i: u32) -> bool
        requires same { pass.old.of ≡ self.now }
        requires within { i < self.now.words }
        ensures answer { IsTrue result ↔ (pass.new.found ≡ 2 ^ 63) }
        ensures known { MatchBool result (pass.new ≡ record pass.old { known = pass.old.known ++ i ∷ []; found = pass.new.found }) (pass.new ≡ record pass.old { found = pass.new.found }) }
    {
        let found = self.table.shared.load::<Looks>(&mut pass.seat, i as usize);
        found == CLOSED
    }

    /// The value of word i at the end, when no thread shares the words any more.
    ///
    /// The rule that every step keeps holds then too: it is the value of word i among all words and passes, of which this
    /// pass is one.
    pub fn value_at_end(self, pass: Pass, i: u32) -> u64
        requires same { pass.of ≡ self }
        requires within { i < self.words }
        ensures { IsEndValue self.words pass i result }
    {
        let RefWords { table } = self;
        let Pass { seat, held: _ } = pass;
        let closed = table.close_with(seat);
        let value = closed.word(i as usize);
        closed.free();
        value
    }
}
