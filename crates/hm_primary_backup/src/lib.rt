//! Primary-backup: the first member of the epoch is the primary, and what every other member holds is committed.
#![tactic(auto)]

pub mod primary;
