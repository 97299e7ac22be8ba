//! What each set has in a wave.

ghost use Rattle.std.specs.Prelude.{◌≡◌, ◌+◌, ◌<◌, ◌^◌, length, slice_index};
ghost use Rattle.vs_waves.specs.Flows.{Fits};
ghost use Rattle.vs_waves.specs.Loads.{AreLoads, IsOneMore};

use crate::flow::Flow;

/// What each near set and each far set has in this wave, by the set's number. The flows say the same:
/// this is kept beside them, so that no step of a search sums them up again.
#[derive(Drop)]
pub struct WaveLoads {
    pub near: [u32; 33],
    pub far: [u32; 33],
}

impl WaveLoads {
    /// What the sets have by these flows.
    pub fn of(flows: &[Flow]) -> WaveLoads
        requires { Fits flows.now }
        ensures { AreLoads result flows.now }
    {
        let mut near = [0; 33];
        let mut far = [0; 33];
        for flow in flows {
            near[flow.near as usize] += flow.now;
            far[flow.far as usize] += flow.now;
        }
        WaveLoads { near, far }
    }

    /// What this near set has.
    pub fn near_now(&self, set: u8) -> u32
        requires { set < length self.now.near }
        ensures { result ≡ slice_index self.now.near set }
    {
        self.near[set as usize]
    }

    /// What this far set has.
    pub fn far_now(&self, set: u8) -> u32
        requires { set < length self.now.far }
        ensures { result ≡ slice_index self.now.far set }
    {
        self.far[set as usize]
    }

    /// Adds one between these sets.
    pub fn add_one(&mut self, near: u8, far: u8)
        requires near { near < length self.old.near }
        requires far { far < length self.old.far }
        requires near_room { slice_index self.old.near near + 1 < 2 ^ 32 }
        requires far_room { slice_index self.old.far far + 1 < 2 ^ 32 }
        ensures { IsOneMore near far self.old self.new }
    {
        self.near[near as usize] += 1;
        self.far[far as usize] += 1;
    }

    /// Takes off one between these sets.
    pub fn take_one(&mut self, near: u8, far: u8)
        requires near { near < length self.old.near }
        requires far { far < length self.old.far }
        requires near_some { 0 < slice_index self.old.near near }
        requires far_some { 0 < slice_index self.old.far far }
        ensures { IsOneMore near far self.new self.old }
    {
        self.near[near as usize] -= 1;
        self.far[far as usize] -= 1;
    }
}
