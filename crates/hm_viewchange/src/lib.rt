//! How a group of Viewstamped Replication changes its view: who was heard to enter it, who voted, and the log that its primary
//! takes (Liskov and Cowling, "Viewstamped Replication Revisited").
#![tactic(auto)]

mod group;
mod packets;
pub mod view_change;
pub mod votes;
pub mod vr_core;
