//! Chain replication: a write passes from the head down to the tail, which commits it and answers.
#![tactic(auto)]

pub mod chain;
mod neighbours;
