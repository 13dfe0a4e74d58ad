//! The configuration service: it knows the members of a group, tells a new epoch to them and to the newest switch, and replaces
//! the switch.
#![tactic(auto)]

pub mod fault;
mod groups;
mod refusers;
pub mod service;
