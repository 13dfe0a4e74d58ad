//! The switch of Harmonia: it numbers the writes, keeps the dirty set, and stamps the reads of all other objects.
#![tactic(auto)]

pub mod fault;
pub mod switch;
