//! A worker of a switch: it takes packets over a link, makes each a turn of the switch, and sends what the switch sends.
#![tactic(auto)]

pub mod worker;
pub mod worker_end;
