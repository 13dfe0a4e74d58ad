//! Schedules: the one spelling of each line, which lines may follow which, why a line is refused, reading and writing them, and
//! schedules that are made of a number.
#![tactic(auto)]

pub mod event;
mod fields;
pub mod generator;
pub mod group_words;
pub mod keyword;
pub mod law;
pub mod limits;
pub mod line;
pub mod lines;
pub mod opening;
pub mod reading;
mod reads;
mod reason;
pub mod refusal;
pub mod round_trip;
pub mod stage;
pub mod write_line;
