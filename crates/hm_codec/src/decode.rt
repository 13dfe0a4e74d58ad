ghost use Rattle.std.specs.Prelude.{◌≡◌, ◌≤◌, ◌↔◌, length, None, Some, IsOk, OnOk, OnErr, IfErr};
ghost use Rattle.hm_wire.specs.Packets.{spelling, first_fault, HasSpelling};

use crate::kinds::{
    ask_packet, config_packet, done_packet, fast_read_packet, feed_ack_packet, feed_packet,
    known_packet, normal_read_packet, page_packet, pull_packet, put_packet, read_packet,
    refuse_packet, refused_packet, reply_packet, route_packet, start_view_change_packet,
    vote_packet, write_packet,
};
use hm_base::entries::PageRoom;
use hm_packet::packet::Packet;
use hm_wire::fault::malformed;
use hm_wire::head::head_at;
use hm_wire::laws::reading_is_exact;
use hm_wire::malformed::Malformed;

/// Puts the packet that the bytes spell in its place, with its page, if it has one, in the room, or answers their first fault.
/// It takes no memory.
#[inline(always)]
pub fn decode<'a>(
    bytes: &[u8],
    room: &'a mut PageRoom,
    packet: &mut Packet<'a>,
) -> Result<(), Malformed>
    ensures ok { OnOk result (spelling packet.new ≡ bytes.now) }
    ensures lawful { OnOk result (HasSpelling packet.new) }
    ensures exact { IsOk result ↔ (first_fault bytes.now ≡ None) }
    ensures err { IfErr result (λ m. first_fault bytes.now ≡ Some m) }
    ensures place { IfErr result (λ m. m.at ≤ length bytes.now) }
    ensures same { OnErr result (packet.new ≡ packet.old) }
{
    reading_is_exact();
    match head_at(bytes) {
        Ok((head, rest)) => match head.code {
            1 => read_packet(head, rest, packet),
            2 => write_packet(head, rest, packet),
            3 => put_packet(head, rest, packet),
            4 => fast_read_packet(head, rest, packet),
            5 => normal_read_packet(head, rest, packet),
            6 => done_packet(head, rest, packet),
            7 => reply_packet(head, rest, packet),
            8 => feed_packet(head, rest, room, packet),
            9 => feed_ack_packet(head, rest, packet),
            10 => ask_packet(head, rest, packet),
            11 => known_packet(head, rest, packet),
            12 => start_view_change_packet(head, rest, packet),
            13 => vote_packet(head, rest, packet),
            14 => pull_packet(head, rest, packet),
            15 => page_packet(head, rest, room, packet),
            16 => config_packet(head, rest, packet),
            17 => route_packet(head, rest, packet),
            18 => refuse_packet(head, rest, packet),
            _ => refused_packet(head, rest, packet),
        },
        Err(fault) => Err(malformed(bytes.len(), fault)),
    }
}
