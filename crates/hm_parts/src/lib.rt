//! What the nodes of a world share: the net, the clients, and what an observer writes down.
#![tactic(auto)]

pub mod clients;
pub mod net;
pub mod observer;
