//! One switch at a time: no live replica takes writes or stamped reads of a switch once a later one is started.
#![tactic(auto)]

pub mod replacement;
