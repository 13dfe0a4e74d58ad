//! Viewstamped Replication: the primary of a view is the replica whose number is the view's modulo the size, and what f others of
//! 2f + 1 hold is committed.
#![tactic(auto)]

mod numbers;
pub mod vr;
