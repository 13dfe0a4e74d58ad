//! Pages of a replicated log: what a replica sends of its log, and what one that follows takes in.
#![tactic(auto)]

pub mod follower;
mod quorum;
pub mod sender;
