//! A switch, a replica and a client as daemons: the very steps of the world's nodes, over links.
#![tactic(auto)]

pub mod address;
pub mod client;
mod fields;
mod member;
pub mod node;
pub mod posts;
pub mod replica;
mod server;
pub mod status;
pub mod udp_link;
pub mod words;
