//! The configuration service as a daemon: it carries the orders of an operator out, and writes what each came to.
#![tactic(auto)]

pub mod config;
mod desk;
mod outcome;
