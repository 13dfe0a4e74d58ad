//! What replicas of every protocol do alike: the packets that they send, the answers to what is committed, and the tests that
//! each packet meets first.
#![tactic(auto)]

pub mod acts;
pub mod answers;
pub mod group;
pub mod law;
pub mod packets;
pub mod senders;
