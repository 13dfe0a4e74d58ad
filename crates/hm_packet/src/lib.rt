//! Packets: their bodies, what contracts see of them, and their text.
#![tactic(auto)]

pub mod acted;
pub mod body;
pub mod field;
pub mod outcome;
pub mod packet;
pub mod parts;
pub mod route;
pub mod text;
pub mod turn;
pub mod words;
