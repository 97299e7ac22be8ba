//! How many buckets each set is to have.

ghost use Rattle.std.specs.Prelude.{◌≡◌, ◌<◌, ◌≤◌, ◌^◌, length, IfOk};
ghost use Rattle.std.specs.Bool.{OnTrue, OnFalse};
ghost use Rattle.std.specs.List.{All, sum_by, count_by, list_any};
ghost use Rattle.vs_balance.specs.Member.{stays, next, repeated, ideals_in, CanShare};
ghost use Rattle.vs_balance.specs.Ideal.{joined, counts_of, ideal_of, has_weight, AreIdeals};

use crate::member::Member;
use crate::sharing::Sharing;
use crate::view::SetView;
use std::alloc::Global;
use vs_base::NoMemory;

/// The number of buckets that each set is to have, in order of set number.
///
/// The unlocked sets share out their buckets in proportion to their weights. As in vshard, a set
/// that would get fewer than it has pinned leaves with its pinned buckets, and the others share out
/// the rest anew, until no further set leaves. A locked set keeps its count, and so does each set
/// where the unlocked ones have no weight.
///
/// The one error is want of memory.
pub fn ideal(alloc: Global, views: &[SetView]) -> Result<Vec<u32>, NoMemory>
    requires sets { length views.now ≤ 32 }
    requires pinned { All (λ view. view.pinned ≤ view.count) views.now }
    requires counts { sum_by (λ view. view.count) views.now < 2 ^ 32 }
    ensures value { IfOk result (λ ideals. ideals.items ≡ ideal_of views.now) }
    ensures right { IfOk result (λ ideals. AreIdeals views.now ideals.items) }
{
    if !any_weight(views) {
        return present(alloc, views);
    }
    let mut members = join(alloc, views)?;
    settle(&mut members);
    last_ideals(alloc, &members)
}

// Whether some unlocked set has a weight.
fn any_weight(views: &[SetView]) -> bool
    ensures { result ≡ list_any has_weight views.now }
{
    views.iter().any(|view| !view.locked && view.weight > 0)
}

// The present counts.
fn present(alloc: Global, views: &[SetView]) -> Result<Vec<u32>, NoMemory>
    ensures { IfOk result (λ counts. counts.items ≡ counts_of views.now) }
{
    Ok(views.iter().map(|view| view.count).collect(alloc)?)
}

// The sets, of which none has left.
fn join(alloc: Global, views: &[SetView]) -> Result<Vec<Member>, NoMemory>
    ensures { IfOk result (λ members. members.items ≡ joined views.now) }
{
    let members = views.iter().map(|view| Member {
        view: *view,
        left: false,
    });
    Ok(members.collect(alloc)?)
}

// Has each set leave that would have fewer buckets than it has pinned, and says whether one did.
fn leave_short(members: &mut [Member]) -> bool
    requires { CanShare members.old }
    ensures after { members.new ≡ next members.old }
    ensures none { OnFalse result (members.new ≡ members.old) }
    ensures some { OnTrue result (count_by stays members.new < count_by stays members.old) }
{
    let mut sharing = Sharing::among(members);
    let mut some_left = false;
    for member in members.iter_mut() {
        let number = sharing.number(member.weight());
        some_left |= member.leave_if_short(number);
    }
    some_left
}

// Has sets leave until no further one does.
fn settle(members: &mut [Member])
    requires { CanShare members.old }
    ensures after { members.new ≡ repeated (length members.old) members.old }
    ensures sharing { CanShare members.new }
{
    while leave_short(members) {}
}

// The ideals of sets of which none leaves.
fn last_ideals(alloc: Global, members: &[Member]) -> Result<Vec<u32>, NoMemory>
    requires { CanShare members.now }
    ensures { IfOk result (λ ideals. ideals.items ≡ ideals_in members.now) }
{
    let mut sharing = Sharing::among(members);
    let mut ideals = Vec::with_capacity(alloc, members.len())?;
    for member in members {
        let number = sharing.number(member.weight());
        ideals.push(member.ideal(number))?;
    }
    Ok(ideals)
}
