//! A doubly linked list of distinct indices, threaded through two arrays.
#![tactic(auto)]

pub mod links;
