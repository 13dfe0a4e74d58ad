//! What holds of a chain after every schedule.
#![tactic(auto)]

pub mod chain;
