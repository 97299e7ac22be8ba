//! A cluster comes to rest once all calls and commands are answered.
#![tactic(auto)]

mod carrying;
mod entries;
mod fault;
mod laws;
mod messages;
mod raising;
mod reads;
mod service;
mod steps;

pub use fault::SettleFault;
pub use laws::finished_is_quiet;
pub use service::settle;
pub use steps::Steps;
