//! Counts of faults.

ghost use Rattle.std.specs.Prelude.{◌≤◌, ◌≡◌, ◌+◌, ◌^◌, min};
ghost use Rattle.vs_base.specs.Faults.{Rose};

/// The count after one more fault. It ends at 2^63, where each further fault leaves it.
pub fn raised(faults: u64) -> u64
    ensures rose { Rose faults result }
    ensures one { faults ≤ 2 ^ 63 → result ≡ min (faults + 1) (2 ^ 63) }
    ensures later { faults ≤ result }
{
    if faults < 1 << 63 { faults + 1 } else { faults }
}
