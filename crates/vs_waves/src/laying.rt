//! One wave, and what is left after it.

ghost use Rattle.std.specs.Prelude.{ℕ, ◌≡◌, ◌+◌, ◌-◌, ◌*◌, ◌<◌, ◌≤◌, ◌^◌, map, length, max, slice_index};
ghost use Rattle.vs_waves.specs.Flows.{near_now, far_now, near_rest, far_rest, bare, mirrored, after_wave, Fits, FarWithin, HasShare, IsFilled, AreLows, NothingNow, IsEnough, IsLaid};

use crate::flow::Flow;
use crate::shifting::shift;
use crate::wave_loads::WaveLoads;

// Raises each near set to its least number in this wave.
fn fill(flows: &mut [Flow], lows: &[u32], limit: u32)
    requires fits { Fits flows.old }
    requires far { FarWithin limit flows.old }
    requires lows { length lows.now ≡ 33 }
    requires share { HasShare lows.now limit flows.old }
    ensures { IsFilled lows.now limit 33 flows.old flows.new }
{
    let mut loads = WaveLoads::of(flows);
    for set in 0..33 {
        while loads.near_now(set) < lows[set as usize] {
            shift(flows, &mut loads, lows, limit, set);
        }
    }
}

// The least that each near set must have in this wave, so that what is left fits into the others.
fn lows(flows: &[Flow], left: u32, limit: u32) -> [u32; 33]
    requires { Fits flows.now }
    ensures { AreLows left limit flows.now result }
{
    let rests = near_rests(flows);
    let mut lows = [0; 33];
    for set in 0..33 {
        let rest = u64::from(rests[set]);
        lows[set] = rest.saturating_sub(u64::from(left) * u64::from(limit)) as u32;
    }
    lows
}

// What each near set has that isn't in an earlier wave, by the set's number.
fn near_rests(flows: &[Flow]) -> [u32; 33]
    requires { Fits flows.now }
    ensures count { length result ≡ 33 }
    ensures each { (set : ℕ) → slice_index result set ≡ near_rest set flows.now }
{
    let mut rests = [0; 33];
    for flow in flows {
        rests[flow.near as usize] += flow.rest;
    }
    rests
}

// Swaps the near and the far side.
fn mirror(flows: &mut [Flow])
    ensures { flows.new ≡ map mirrored flows.old }
{
    for flow in flows.iter_mut() {
        *flow = Flow {
            near: flow.far,
            far: flow.near,
            rest: flow.rest,
            now: flow.now,
        };
    }
}

/// Lays out a wave, after which so many waves are enough for what is left.
pub fn lay(flows: &mut [Flow], left: u32, near_limit: u32, far_limit: u32)
    requires fits { Fits flows.old }
    requires before { NothingNow flows.old }
    requires enough { IsEnough (left + 1) near_limit far_limit flows.old }
    ensures { IsLaid left near_limit far_limit flows.old flows.new }
{
    let near_lows = lows(flows, left, near_limit);
    fill(flows, &near_lows, far_limit);
    mirror(flows);
    let far_lows = lows(flows, left, far_limit);
    fill(flows, &far_lows, near_limit);
    mirror(flows);
}

/// Goes on to the next wave: what is in this one is taken off what is left.
pub fn end_wave(flows: &mut [Flow])
    requires { Fits flows.old }
    ensures { flows.new ≡ map after_wave flows.old }
{
    for flow in flows.iter_mut() {
        flow.rest -= flow.now;
        flow.now = 0;
    }
}
