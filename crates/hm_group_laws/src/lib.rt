//! What holds of each kind of group after every schedule.
#![tactic(auto)]

pub mod groups;
