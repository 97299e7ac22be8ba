//! A module for what holds threads up, one for disks that fail, and what both begin with.

mod disks;
mod gates;
mod outside;
