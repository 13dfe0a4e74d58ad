use crate::outs::Outs;
use hm_packet::acted::{Declared, Did};

/// What a replica's step gave: the packets to send in order, the range that it declared, and how it ended.
#[derive(Drop)]
pub struct Acted {
    pub outs: Outs,
    pub declared: Declared,
    pub did: Did,
}
