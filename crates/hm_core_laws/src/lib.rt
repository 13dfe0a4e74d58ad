//! What holds of every world whose replicas keep to what a protocol owes: of its packets, switches, clients and logs, of the
//! declared list and of the history. No protocol is named here, but for the timeout that Viewstamped
//! Replication has.
#![tactic(auto)]

pub mod epochs;
pub mod events;
pub mod later;
pub mod steps;
