//! Each client's latest request in a log: no request is executed twice.
#![tactic(auto)]

pub mod table;
