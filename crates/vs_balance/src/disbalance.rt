//! Whether sets are far from their ideal counts.

ghost use Rattle.std.specs.Prelude.{◌≡◌, length};
ghost use Rattle.vs_balance.specs.Disbalance.{is_disbalanced};

use crate::view::SetView;

/// Whether some unlocked set's count differs from its ideal by more than `threshold` percent of the
/// ideal. A rebalancer moves buckets only then, by vshard's `rebalancer_disbalance_threshold`.
pub fn disbalanced(views: &[SetView], ideals: &[u32], threshold: u32) -> bool
    requires { length views.now ≡ length ideals.now }
    ensures { result ≡ is_disbalanced views.now ideals.now threshold }
{
    views.iter().zip(ideals).any(|(view, ideal)| {
        let off = u64::from(view.count.abs_diff(*ideal)) * 100;
        !view.locked && off > u64::from(threshold) * u64::from(*ideal)
    })
}
