//! Stamps, values, log entries, nodes and short lists: what every part of the store speaks of.
#![tactic(auto)]

pub mod buffer;
pub mod entries;
pub mod entry;
mod hexadecimal;
pub mod members;
pub mod memory;
pub mod node;
pub mod operation;
pub mod reply;
pub mod spelling;
pub mod stamp;
pub mod steps;
pub mod text;
pub mod value;
pub mod verdict;
pub mod why;
