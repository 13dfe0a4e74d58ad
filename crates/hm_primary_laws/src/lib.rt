//! What holds of a primary-backup group after every schedule.
#![tactic(auto)]

pub mod primary;
