//! Frames in a stream of bytes, and links, which datagrams come from and go to.
#![tactic(auto)]

pub mod datagram;
pub mod frame;
pub mod law;
pub mod link;
pub mod link_law;
pub mod memory_link;
pub mod sure_link;
