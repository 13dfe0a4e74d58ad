//! The book of a switch: the switch, and the journal of its turns, which tells its whole history.
#![tactic(auto)]

pub mod book;
pub mod journal;
mod text;
