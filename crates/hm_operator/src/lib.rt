//! The orders of an operator to the configuration service: the one spelling of each, and the first reason for which a line is none.
#![tactic(auto)]

pub mod live;
pub mod order;
pub mod reading;
