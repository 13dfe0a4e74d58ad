//! What a step of a replica keeps, whatever its protocol and whatever packet comes.
#![tactic(auto)]

pub mod steps;
