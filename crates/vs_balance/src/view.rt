//! What is seen of a set.

ghost use Rattle.std.specs.Prelude.{◌≡◌};

/// What the rebalancer sees of a set.
#[derive(Clone, Copy)]
pub struct SetView {
    /// Its active and pinned buckets.
    pub count: u32,
    /// Its pinned buckets, which may not be moved.
    pub pinned: u32,
    /// Its weight. The buckets are shared out in proportion to the weights.
    pub weight: u32,
    /// Whether it is locked: it then neither gives nor takes buckets.
    pub locked: bool,
}

impl SetView {
    ghost use Rattle.vs_balance.specs.Routes.{excess_of, lack_of};

    // What the set has above its ideal.
    pub(crate) fn excess(&self, ideal: u32) -> u32
        ensures { result ≡ excess_of self.now ideal }
    {
        if self.locked {
            0
        } else {
            self.count.saturating_sub(ideal)
        }
    }

    // What the set has below its ideal, and not more than the limit.
    pub(crate) fn lack(&self, ideal: u32, limit: u32) -> u32
        ensures { result ≡ lack_of limit self.now ideal }
    {
        if self.locked {
            0
        } else {
            ideal.saturating_sub(self.count).min(limit)
        }
    }
}
