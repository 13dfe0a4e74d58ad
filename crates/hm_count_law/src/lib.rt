//! How long the order of a history is, without making the order.
#![tactic(auto)]

pub mod counts;
