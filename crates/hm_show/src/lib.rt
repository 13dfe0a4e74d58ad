//! The packets of frames as text.
#![tactic(auto)]

pub mod show;
pub mod text;
pub mod verdict;
