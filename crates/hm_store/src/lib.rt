//! The replicated log, the last write of each object in it, and a list that is staged behind it.
#![tactic(auto)]

pub mod last_places;
pub mod ledger;
pub mod staged;
