//! What each kind of event does.

pub(crate) mod act;
pub(crate) mod ask;
pub(crate) mod begin;
pub(crate) mod chunk;
pub(crate) mod close;
pub(crate) mod condemn;
pub(crate) mod cut;
pub(crate) mod deliver;
pub(crate) mod end;
pub(crate) mod end_move;
pub(crate) mod fault;
pub(crate) mod forget;
pub(crate) mod freeze;
pub(crate) mod haul;
pub(crate) mod hear;
pub(crate) mod last;
pub(crate) mod pin;
pub(crate) mod plan;
pub(crate) mod post;
pub(crate) mod restart;
pub(crate) mod start;
pub(crate) mod stop;
pub(crate) mod take;
pub(crate) mod wipe;
