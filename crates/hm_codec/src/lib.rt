//! Packets as bytes: writing the one spelling of each, reading it, or finding the first fault, and keeping packets as spellings.
#![tactic(auto)]

pub mod acted;
mod bodies;
pub mod buf;
pub mod decode;
pub mod encode;
mod kinds;
mod laws;
pub mod outs;
mod parts;
pub mod spellings;
