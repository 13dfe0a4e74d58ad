//! What holds of a group of Viewstamped Replication after every schedule.
#![tactic(auto)]

pub mod vr;
