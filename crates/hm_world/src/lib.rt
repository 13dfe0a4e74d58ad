//! The world: all nodes, the net between them, the clients and the history.
#![tactic(auto)]

mod arrivals;
mod client;
mod client_events;
pub mod fault;
pub mod group;
mod replica_events;
mod service_events;
mod slotted;
mod state;
mod switches;
pub mod world;
