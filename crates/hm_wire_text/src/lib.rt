//! The text of packets straight from their bytes: each word is written as it is read, and no packet is made.
#![tactic(auto)]

mod pages;
pub mod text;
mod words;
