//! The program's top call: the bytes of a schedule in, the bytes of its run out; and schedules made of a number.
#![tactic(auto)]

mod commands;
mod events;
mod law;
pub mod replay;
mod run_text;
pub mod status;
mod summary;
pub mod words;
