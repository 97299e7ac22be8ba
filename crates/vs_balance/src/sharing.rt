//! Buckets shared out in proportion to weights.

ghost use Rattle.std.specs.Prelude.{◌≡◌, ◌-◌, ◌<◌, ◌≤◌, ◌^◌, if◌then◌else◌};
ghost use Rattle.std.specs.List.{sum};
ghost use Rattle.vs_balance.specs.Sharing.{surplus, is_broken, number_with};
ghost use Rattle.vs_balance.specs.Member.{CanShare, shared_count, weights_of};

use crate::member::Member;

/// A number of buckets that is shared out, one weight after another.
#[derive(Drop)]
pub struct Sharing {
    /// What is shared out.
    pub buckets: u64,
    /// The sum of the weights.
    pub total: u64,
    /// What the shares, rounded up, have too much, as far as it is still to be given back.
    pub surplus: u64,
}

impl Sharing {
    /// The sharing among the sets that stay.
    pub fn among(members: &[Member]) -> Sharing
        requires { CanShare members.now }
        ensures buckets { result.buckets ≡ shared_count members.now }
        ensures total { result.total ≡ sum (weights_of members.now) }
        ensures few { result.buckets < 2 ^ 32 }
        ensures surplus { result.surplus ≡ surplus result.buckets (weights_of members.now) }
    {
        let (buckets, total) = sums(members);
        let mut rounded_up = 0;
        for member in members {
            rounded_up += (buckets * u64::from(member.weight())).div_ceil(total);
        }
        Sharing {
            buckets,
            total,
            surplus: rounded_up - buckets,
        }
    }

    /// The number of the next weight.
    pub fn number(&mut self, weight: u32) -> u32
        requires buckets { self.old.buckets < 2 ^ 32 }
        requires total { 0 < self.old.total }
        requires part { weight ≤ self.old.total }
        ensures value { result ≡ number_with self.old.buckets self.old.total self.old.surplus weight }
        ensures rest { let back = if is_broken self.old.buckets self.old.total weight then 1 else 0 in
            self.new ≡ record self.old { surplus = self.old.surplus - back } }
    {
        let product = self.buckets * u64::from(weight);
        let rounded_down = product / self.total;
        if product % self.total == 0 {
            return rounded_down as u32;
        }
        if self.surplus == 0 {
            return (rounded_down + 1) as u32;
        }
        self.surplus -= 1;
        rounded_down as u32
    }
}

// What is shared out, and the sum of the weights.
fn sums(members: &[Member]) -> (u64, u64)
    requires { CanShare members.now }
    ensures buckets { result.0 ≡ shared_count members.now }
    ensures total { result.1 ≡ sum (weights_of members.now) }
    ensures few { result.0 < 2 ^ 32 }
{
    let mut buckets = 0;
    let mut total = 0;
    for member in members {
        buckets += u64::from(member.buckets());
        total += u64::from(member.weight());
    }
    (buckets, total)
}
