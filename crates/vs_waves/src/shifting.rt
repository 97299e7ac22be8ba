//! One more at a near set in this wave, for which others may have to shift theirs.

ghost use Rattle.std.specs.Prelude.{ℕ, ◌≡◌, ◌+◌, ◌<◌, ◌≤◌, length, slice_index, true};
ghost use Rattle.std.specs.Bool.{OnTrue, OnFalse};
ghost use Rattle.vs_waves.specs.Flows.{near_now, far_now, Fits, FarWithin, one_at, IsShifted, IsBarred, IsStuck, IsOpenToSeen, HasShare, unseen, is_seen};
ghost use Rattle.vs_waves.specs.Loads.{AreLoads};

use crate::flow::Flow;
use crate::wave_loads::WaveLoads;

// Gives a near set one more, if that can be without a far set that was seen, and else leaves all as
// it was.
#[cycle(shift)]
fn place(
    flows: &mut [Flow],
    loads: &mut WaveLoads,
    lows: &[u32],
    limit: u32,
    seen: &mut [bool],
    set: u8,
) -> bool
    requires fits { Fits flows.old }
    requires far { FarWithin limit flows.old }
    requires lows { length lows.now ≡ 33 }
    requires seen { length seen.old ≡ 33 }
    requires needed { near_now set flows.old < slice_index lows.now set }
    requires loads { AreLoads loads.old flows.old }
    ensures done { OnTrue result (IsShifted lows.now limit (λ s. near_now s flows.old + one_at s set) (λ s. far_now s flows.old) flows.old flows.new) }
    ensures same { OnFalse result (flows.new ≡ flows.old) }
    ensures barred { OnFalse result (IsBarred lows.now limit seen.old seen.new flows.old) }
    ensures leads { OnFalse result (IsOpenToSeen seen.new flows.old set) }
    ensures fewer { unseen seen.new ≤ unseen seen.old }
    ensures loads { AreLoads loads.new flows.new }
{
    for i in 0..flows.len() {
        let flow = flows[i];
        let far = flow.far as usize;
        if flow.near == set && flow.now < flow.rest && !seen[far] {
            seen[far] = true;
            flows[i].now += 1;
            loads.add_one(flow.near, flow.far);
            if relieve(flows, loads, lows, limit, seen, flow.far) {
                return true;
            }
            flows[i].now -= 1;
            loads.take_one(flow.near, flow.far);
        }
    }
    false
}

// Takes one from a far set that may have one too many, if another can have it, and else leaves all
// as it was.
#[cycle(shift)]
fn relieve(
    flows: &mut [Flow],
    loads: &mut WaveLoads,
    lows: &[u32],
    limit: u32,
    seen: &mut [bool],
    set: u8,
) -> bool
    requires fits { Fits flows.old }
    requires far { (s : ℕ) → far_now s flows.old ≤ limit + one_at s set }
    requires lows { length lows.now ≡ 33 }
    requires seen { length seen.old ≡ 33 }
    requires here { is_seen set seen.old ≡ true }
    requires loads { AreLoads loads.old flows.old }
    ensures done { OnTrue result (IsShifted lows.now limit (λ s. near_now s flows.old) (λ s. far_now s flows.old) flows.old flows.new) }
    ensures same { OnFalse result (flows.new ≡ flows.old) }
    ensures barred { OnFalse result (IsBarred lows.now limit seen.old seen.new flows.old) }
    ensures full { OnFalse result (limit < far_now set flows.old) }
    ensures stuck { OnFalse result (IsStuck lows.now seen.new flows.old set) }
    ensures fewer { unseen seen.new ≤ unseen seen.old }
    ensures loads { AreLoads loads.new flows.new }
{
    if loads.far_now(set) <= limit {
        return true;
    }
    for i in 0..flows.len() {
        let flow = flows[i];
        if flow.far == set && flow.now > 0 {
            flows[i].now -= 1;
            loads.take_one(flow.near, flow.far);
            if loads.near_now(flow.near) >= lows[flow.near as usize] {
                return true;
            }
            if place(flows, loads, lows, limit, seen, flow.near) {
                return true;
            }
            flows[i].now += 1;
            loads.add_one(flow.near, flow.far);
        }
    }
    false
}

/// Gives a near set one more, which can be where the sets have their share.
pub fn shift(flows: &mut [Flow], loads: &mut WaveLoads, lows: &[u32], limit: u32, set: u8)
    requires fits { Fits flows.old }
    requires far { FarWithin limit flows.old }
    requires lows { length lows.now ≡ 33 }
    requires needed { near_now set flows.old < slice_index lows.now set }
    requires share { HasShare lows.now limit flows.old }
    requires loads { AreLoads loads.old flows.old }
    ensures shifted { IsShifted lows.now limit (λ s. near_now s flows.old + one_at s set) (λ s. far_now s flows.old) flows.old flows.new }
    ensures loads { AreLoads loads.new flows.new }
{
    let mut seen = [false; 33];
    if !place(flows, loads, lows, limit, &mut seen, set) {
        // The sets that were seen would have more left than fits into the waves.
        unreachable!();
    }
}
