ghost use Rattle.std.specs.Prelude.{◌≡◌, ◌≤◌, length};
ghost use Rattle.std.specs.List.{sum_by};

use vs_balance::SetView;

/// How many buckets at most 32 sets have in all.
pub fn total(views: &[SetView]) -> u64
    requires { length views.now ≤ 32 }
    ensures { result ≡ sum_by (λ view. view.count) views.now }
{
    views.iter().map(|view| u64::from(view.count)).sum()
}
