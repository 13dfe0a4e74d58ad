//! The dirty set of a switch (Harmonia): which objects have a write that isn't completed, in a hash table of several stages.
#![tactic(auto)]

pub mod dirty_set;
mod emptying;
mod find;
mod places;
pub mod slot;
