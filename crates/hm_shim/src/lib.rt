//! What all replicas do with stamps: admission of numbered writes, and the tests of stamped reads.
#![tactic(auto)]

pub mod shim;
