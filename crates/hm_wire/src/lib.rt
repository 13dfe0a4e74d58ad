//! Packets on the wire: the grammar of their spelling with its laws, and readers of the parts, left to right.
#![tactic(auto)]

pub mod bodies;
pub mod fault;
pub mod fields;
pub mod head;
pub mod laws;
pub mod lists;
pub mod malformed;
pub mod parts;
