//! The run of a schedule in which a switch refuses a write just where its slots are full, and that its text shows the refusals.
#![tactic(auto)]

pub mod outcomes;
pub mod refusals;
