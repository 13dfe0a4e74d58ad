//! The limits of a schedule.

use hm_packet::acted::MAX_OUTS;

/// How many events a schedule may have.
pub const MAX_EVENTS: u32 = 16_384;

/// How many packets so many events send at most.
pub const MAX_PACKETS: u32 = MAX_OUTS as u32 * MAX_EVENTS;
