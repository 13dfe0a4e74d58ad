use crate::packet::Packet;
use hm_base::why::Why;

/// What a switch makes of a packet: it sends one packet, takes note, or takes no notice of it; it refuses a write for want
/// of a free slot; or it has handled as many packets as its life allows, and nothing changes.
#[derive(Drop)]
pub enum Turn {
    Sent(Packet<'static>),
    Noted,
    Ignored(Why),
    Full,
    Spent,
}
