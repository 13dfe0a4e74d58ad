//! Histories of invocations, commits and replies, and the order of their operations.
#![tactic(auto)]

pub mod history;
pub mod law;
pub mod mark;
mod places;
