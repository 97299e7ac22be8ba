//! What any list of calls leaves of the references.

ghost use Rattle.std.specs.Prelude.{◌≡◌, ◌≤◌, ◌-◌, ℕ, List, [], ◌∷◌, ◌++◌};
ghost use Rattle.vs_base.specs.declared.numbers.Mode.{Mode};
ghost use Rattle.vs_refs.specs.declared.counts.Counts.{Counts};
ghost use Rattle.vs_refs.specs.Counts.{count_of, lock_of};
ghost use Rattle.vs_refs.specs.Refs.{counts_of};
ghost use Rattle.vs_refs.specs.Calls.{Call, Makes, IsAllowed, IsLeftBy, taken, given, locked};

/// After any list of calls, from none, a bucket's count of each mode is its takes less its gives
/// since its references were last forgotten, and a lock stands where it was set since it was last
/// lifted or forgotten. Each call's clause is a step of such a list.
pub fn references_are_counted()
    ensures begins { IsLeftBy [] [] }

    ensures goes_on { (calls : List Call) (call : Call) (old new : List (ℕ × Counts)) →
        IsLeftBy calls old → ((b : ℕ) → IsAllowed call b (counts_of old b)) → Makes call old new →
        IsLeftBy (calls ++ call ∷ []) new }

    ensures counts { (calls : List Call) (entries : List (ℕ × Counts)) (b : ℕ)
        (mode : Mode) → IsLeftBy calls entries →
        count_of (counts_of entries b) mode ≡ taken calls b mode - given calls b mode }

    ensures given_after_taken { (calls : List Call) (entries : List (ℕ × Counts)) (b : ℕ)
        (mode : Mode) → IsLeftBy calls entries → given calls b mode ≤ taken calls b mode }

    ensures locks { (calls : List Call) (entries : List (ℕ × Counts)) (b : ℕ)
        (mode : Mode) → IsLeftBy calls entries →
        lock_of (counts_of entries b) mode ≡ locked calls b mode }
{}
