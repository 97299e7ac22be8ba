//! In how few waves sets can give and take the buckets of a rebalancing, and what each wave moves.
#![tactic(auto)]

mod checking;
mod flow;
mod forcing;
mod forcing_set;
mod laying;
mod loads;
mod plannable;
mod planning;
mod shifting;
mod wave;
mod wave_loads;

pub use checking::check_waves;
pub use forcing::forced;
pub use forcing_set::Forced;
pub use plannable::can_plan;
pub use planning::waves;
pub use wave::{Move, Wave, Waves};
