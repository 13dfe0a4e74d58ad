//! The tests of the crates below, in one crate, so that each of those is proved once, in modules named for what they
//! test.
#![tactic(auto)]

#[cfg(test)]
mod base;
#[cfg(test)]
mod codec;
#[cfg(test)]
mod commands;
#[cfg(test)]
mod frame;
#[cfg(test)]
mod generator;
#[cfg(test)]
mod packet;
#[cfg(test)]
mod primary_rows;
#[cfg(test)]
mod refused_rows;
#[cfg(test)]
mod replay;
#[cfg(test)]
mod rows;
#[cfg(test)]
mod schedule;
#[cfg(test)]
mod show;
#[cfg(test)]
mod vr_rows;
#[cfg(test)]
mod world;
