//! Where bytes come from and where they go to.
#![tactic(auto)]

pub mod adapters;
pub mod device;
pub mod law;
pub mod memory;
pub mod sure;
