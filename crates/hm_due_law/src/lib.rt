//! Why replies are due: each answer of a read rests on a prefix of the declared list.
#![tactic(auto)]

pub mod answers;
pub mod growth;
pub mod tidy;
