//! The tests of the crates that run nodes over links: a module for each crate.
#![tactic(auto)]

#[cfg(test)]
mod daemon;
#[cfg(test)]
mod desk;
#[cfg(test)]
mod shared;
#[cfg(test)]
mod worker;
