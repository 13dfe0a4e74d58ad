ghost use Rattle.std.specs.Prelude.{◌≡◌, ◌≤◌, length};
ghost use Rattle.hm_packet.specs.Fields as table;
ghost use Rattle.hm_wire.specs.Packets as packets;
ghost use Rattle.hm_wire.specs.Packets.{tail_numbers, spelling, max_spelling_len, HasSpelling};
ghost use Rattle.hm_codec.specs.Writing.{Adds, Writes, tail_fields};

use crate::bodies::push_fields;
use crate::buf::{Buf, MAX_LEN};
use crate::parts::{push_members, push_node, push_page};
use hm_packet::body::Body;
use hm_packet::packet::Packet;
use hm_wire::laws::spelling_is_short;

/// Appends the list that a body ends with.
#[inline(always)]
fn push_tail<const N: usize>(body: &Body, buf: &mut Buf<N>)
    ensures { Writes N (tail_fields (table.tail body.now)) (tail_numbers (table.tail body.now)) buf.old buf.new }
{
    match body {
        Body::Feed(feed) => push_page(feed.entries.as_slice(), buf),
        Body::Page(page) => push_page(page.entries.as_slice(), buf),
        Body::Config(config) => push_members(config.members.as_slice(), buf),
        Body::Route(route) => push_members(route.members.as_slice(), buf),
        _ => {}
    }
}

/// The code of a body's kind.
fn code(body: &Body) -> u8
    ensures { result ≡ packets.code body.now }
{
    match body {
        Body::Read(_) => 1,
        Body::Write(_) => 2,
        Body::Put(_) => 3,
        Body::FastRead(_) => 4,
        Body::NormalRead(_) => 5,
        Body::Done(_) => 6,
        Body::Reply(_) => 7,
        Body::Feed(_) => 8,
        Body::FeedAck(_) => 9,
        Body::Ask(_) => 10,
        Body::Known(_) => 11,
        Body::StartViewChange(_) => 12,
        Body::Vote(_) => 13,
        Body::Pull(_) => 14,
        Body::Page(_) => 15,
        Body::Config(_) => 16,
        Body::Route(_) => 17,
        Body::Refuse(_) => 18,
        Body::Refused(_) => 19,
    }
}

/// Appends the packet's one spelling, where there is room for it.
#[inline(always)]
pub(crate) fn push_packet<const N: usize>(packet: &Packet, buf: &mut Buf<N>)
    ensures spelled { Adds N buf.old buf.new (spelling packet.now) }
    ensures lawful { HasSpelling packet.now }
{
    buf.push(&[1, code(&packet.body)]);
    push_node(packet.src, buf);
    push_node(packet.dst, buf);
    push_fields(&packet.body, buf);
    push_tail(&packet.body, buf);
}

/// Writes the packet's one spelling into the buffer, over what was there. It takes no memory.
pub fn encode(packet: &Packet, buf: &mut Buf<MAX_LEN>)
    ensures spelled { buf.new ≡ spelling packet.now }
    ensures lawful { HasSpelling packet.now }
    ensures longest { length buf.new ≤ max_spelling_len }
{
    spelling_is_short();
    buf.clear();
    push_packet(packet, buf);
}
